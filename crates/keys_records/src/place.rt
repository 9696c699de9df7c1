//! Where in a record a byte is, and what is passed on of it.
ghost use Rattle.std.specs.Prelude.{◌≡◌, true};
ghost use Rattle.keys_records.specs.declared.place.Before.TheVariants.{Record};
ghost use Rattle.keys_records.specs.Steps.{record_place, first_place, field_place, moved, value_step, end_step, outside_step, step, end_of};
ghost use Rattle.keys_records.specs.Steps.{stay_in_value, Stays};

use crate::flaw::Flaw;
use crate::form::{BETWEEN, Columns, Form};

/// What is before the next byte of a record.
#[derive(Clone, Copy, Debug, PartialEq, Eq)]
pub(crate) enum Before {
    /// Nothing: the byte is the record's first.
    Record,
    /// A separator: the byte is a field's first.
    Separator,
    /// A byte of a plain field.
    Plain,
    /// Bytes inside quotes.
    Quoted,
    /// Bytes inside quotes and a quote, which closes them or is the first of two.
    Quote,
    /// A CR outside of quotes.
    Return,
}

/// Where in a record the next byte is.
#[derive(Clone, Copy, Debug, PartialEq, Eq)]
pub(crate) struct Place {
    /// What is before the byte.
    before: Before,
    /// The chosen fields, counted from the one that the byte is in.
    columns: Columns,
    /// Whether the record is the header.
    header: bool,
}

/// What is passed on of a byte, and where the next byte is.
#[derive(Clone, Copy, Debug, PartialEq, Eq)]
pub(crate) enum Step {
    /// One byte.
    Shows(u8, Place),
    /// Nothing.
    Drops(Place),
    /// The byte shows a flaw.
    Flawed(Flaw),
}

/// What is passed on of a byte behind which the place is the same, as of nearly all bytes of fields.
#[derive(Clone, Copy, Debug, PartialEq, Eq)]
pub(crate) enum Stay {
    /// The byte.
    Shown,
    /// Nothing.
    Dropped,
    /// It isn't known here: `step` has it.
    Unknown,
}

/// What is passed on at the end of a text.
#[derive(Clone, Copy, Debug, PartialEq, Eq)]
pub(crate) enum End {
    /// An LF, since the last record lacks its end.
    Ends,
    /// Nothing.
    Rests,
    /// The end shows a flaw.
    Fails(Flaw),
}

/// The start of a record that isn't the header.
#[inline(always)]
fn record_place(form: Form) -> Place
    ensures { result ≡ record_place form }
{
    Place {
        before: Before::Record,
        columns: form.columns,
        header: false,
    }
}

impl Place {
    /// The start of a text.
    pub(crate) fn first(form: Form) -> Place
        ensures { result ≡ first_place form }
    {
        if form.header {
            Place {
                before: Before::Record,
                columns: Columns::new(0, 0, 0),
                header: true,
            }
        } else {
            record_place(form)
        }
    }

    /// Whether it is the start of a record.
    pub(crate) fn is_start(self) -> bool
        ensures start { self.before ≡ Record → result ≡ true }
        ensures other { result ≡ true → self.before ≡ Record }
    {
        matches!(self.before, Before::Record)
    }

    /// The start of the next field.
    #[inline(always)]
    fn next_field(self) -> Place
        ensures { result ≡ field_place self }
    {
        Place {
            before: Before::Separator,
            columns: self.columns.without_first(),
            header: self.header,
        }
    }

    /// The place behind a byte of the same field.
    #[inline(always)]
    fn moved(self, before: Before) -> Place
        ensures { result ≡ moved self before }
    {
        Place {
            before,
            columns: self.columns,
            header: self.header,
        }
    }

    /// Passes on a byte of a field's value, if the field is chosen.
    #[inline(always)]
    fn pass_value(self, before: Before, byte: u8) -> Step
        ensures { result ≡ value_step self before byte }
    {
        if !self.columns.has_first() {
            Step::Drops(self.moved(before))
        } else if byte == b'\n' {
            Step::Flawed(Flaw::Lines)
        } else if byte == BETWEEN {
            Step::Flawed(Flaw::Between)
        } else {
            Step::Shows(byte, self.moved(before))
        }
    }

    /// Passes on the LF that ends a record.
    #[inline(always)]
    fn pass_end(self, form: Form) -> Step
        ensures { result ≡ end_step form self }
    {
        if self.header {
            Step::Drops(record_place(form))
        } else {
            Step::Shows(b'\n', record_place(form))
        }
    }

    /// Passes on what separates fields or ends a record; another byte as `others`.
    #[inline(always)]
    fn pass_outside(self, form: Form, byte: u8, others: Step) -> Step
        ensures { result ≡ outside_step form self byte others }
    {
        if byte == form.separator {
            if self.header {
                Step::Drops(self.next_field())
            } else {
                Step::Shows(BETWEEN, self.next_field())
            }
        } else if byte == b'\n' {
            self.pass_end(form)
        } else if byte == b'\r' {
            Step::Drops(self.moved(Before::Return))
        } else {
            others
        }
    }

    /// What is passed on of the byte here.
    #[inline(always)]
    pub(crate) fn step(self, form: Form, byte: u8) -> Step
        ensures { result ≡ step form self byte }
    {
        match self.before {
            Before::Quoted => {
                if byte == b'"' {
                    Step::Drops(self.moved(Before::Quote))
                } else {
                    self.pass_value(Before::Quoted, byte)
                }
            }
            Before::Quote => {
                if byte == b'"' {
                    self.pass_value(Before::Quoted, byte)
                } else {
                    self.pass_outside(form, byte, Step::Flawed(Flaw::Behind))
                }
            }
            Before::Return => {
                if byte == b'\n' {
                    self.pass_end(form)
                } else {
                    Step::Flawed(Flaw::Return)
                }
            }
            Before::Plain => {
                if byte == b'"' {
                    Step::Flawed(Flaw::Quote)
                } else {
                    self.pass_outside(form, byte, self.pass_value(Before::Plain, byte))
                }
            }
            _ => {
                if byte == b'"' {
                    Step::Drops(self.moved(Before::Quoted))
                } else {
                    self.pass_outside(form, byte, self.pass_value(Before::Plain, byte))
                }
            }
        }
    }

    /// What is passed on of a byte of a value.
    #[inline(always)]
    fn stay_in_value(self) -> Stay
        ensures { result ≡ stay_in_value self }
    {
        if self.columns.has_first() {
            Stay::Shown
        } else {
            Stay::Dropped
        }
    }

    /// What is passed on of the byte here, if the place behind it is the same.
    #[inline(always)]
    pub(crate) fn stay(self, form: Form, byte: u8) -> Stay
        ensures { Stays form self byte result }
    {
        match self.before {
            Before::Plain => {
                if byte == form.separator
                    || byte == b'"'
                    || byte == b'\n'
                    || byte == b'\r'
                    || byte == BETWEEN
                {
                    Stay::Unknown
                } else {
                    self.stay_in_value()
                }
            }
            Before::Quoted => {
                if byte == b'"' || byte == b'\n' || byte == BETWEEN {
                    Stay::Unknown
                } else {
                    self.stay_in_value()
                }
            }
            _ => Stay::Unknown,
        }
    }

    /// What is passed on if the text ends here.
    pub(crate) fn end(self) -> End
        ensures { result ≡ end_of self }
    {
        match self.before {
            Before::Record => End::Rests,
            Before::Quoted => End::Fails(Flaw::Open),
            Before::Return => End::Fails(Flaw::Return),
            _ => { if self.header { End::Rests } else { End::Ends } }
        }
    }
}
