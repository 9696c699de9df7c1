//! Makes the calls of a line on an object, plainly or with each request for memory refused in turn.
use crate::answers::Answers;
use crate::object::{Call, Heap, Left, Memory, Object};
use crate::series::{Spread, spread_of};
use crate::words::{Fault, put_fault};
use sketch_base::ErrorKind;
use std::alloc::{AllocError, Global};
use tests_allocator::Refusal;

/// The settings and the calls of a line, and whether requests for memory are refused.
#[derive(Clone, Copy)]
pub struct Line<'l> {
    pub refusing: bool,
    pub settings: &'l str,
    pub calls: &'l str,
}

/// The answer of a call, and the requests that were refused for it.
#[derive(Drop)]
struct Tried {
    answer: String,
    refused: u64,
}

/// A line whose calls are made, and the memory of its object.
#[derive(Clone, Copy)]
struct Driver<'h, 'l> {
    heap: &'h Heap,
    line: Line<'l>,
}

/// A text of its own.
fn text_of(plain: Global, words: &str) -> Result<String, AllocError> {
    String::from_str(plain, words)
}

/// The answer of a call that is made while some requests are refused.
fn answer_of<A, O: Object<A>>(
    heap: &Heap,
    refusal: Refusal,
    object: &mut O,
    call: Call<'_>,
) -> Result<String, AllocError> {
    let memory = Memory { heap, refusal };
    let mut answer = String::new(*heap.inner());
    memory.refuse();
    let made = object.call(memory, call, &mut answer);
    if let Err(fault) = made {
        answer.clear();
        put_fault(&mut answer, fault)?;
    }
    Ok(answer)
}

/// All that can be seen of an object.
fn seen<A, O: Object<A>>(heap: &Heap, object: &O) -> Result<String, AllocError> {
    heap.restart(Refusal::Never);
    let mut text = String::new(*heap.inner());
    if let Err(fault) = object.see(&mut text) {
        text.clear();
        put_fault(&mut text, fault)?;
    }
    Ok(text)
}

impl<'h, 'l> Driver<'h, 'l> {
    /// Memory that is never refused.
    fn plain(&self) -> Global {
        *self.heap.inner()
    }

    /// Resets an object, and makes the first calls of the line on it again, of which no answer is wanted.
    fn call_again<A, O: Object<A>>(&self, object: &mut O, number: usize) -> Result<(), AllocError> {
        object.reset();
        for text in self.line.calls.split("; ").take(number) {
            let _ = answer_of(self.heap, Refusal::Never, object, Call::read(text))?;
        }
        Ok(())
    }

    /// What is wrong with an object after a call that was refused for memory; nothing if the answer is `None`.
    fn wrong_after<A, O: Object<A>>(
        &self,
        object: &mut O,
        call: Call<'_>,
        number: usize,
        before: &str,
    ) -> Result<Option<&'static str>, AllocError> {
        match O::left_by(call.verb) {
            Left::Beginning => return Ok(None),
            Left::Unchanged => {}
            Left::Failed => {
                self.heap.restart(Refusal::Never);
                if object.is_failed(self.plain()) != Ok(true) {
                    return Ok(Some("unfailed"));
                }
                self.call_again(object, number)?;
            }
        }
        if seen(self.heap, object)?.as_str() == before {
            Ok(None)
        } else {
            Ok(Some("changed"))
        }
    }

    /// Makes a call with its first, its second and each later request refused, until none is.
    fn call_refused<A, O: Object<A>>(
        &self,
        object: &mut O,
        call: Call<'_>,
        number: usize,
    ) -> Result<Tried, AllocError> {
        let before = seen(self.heap, object)?;
        for refused in 0..u64::MAX {
            let answer = answer_of(self.heap, Refusal::Only(refused), object, call)?;
            if self.heap.seen() <= refused {
                return Ok(Tried { answer, refused });
            }
            let wrong = if answer.as_str() == "memory" {
                self.wrong_after(object, call, number, before.as_str())?
            } else {
                Some("unreported")
            };
            if let Some(word) = wrong {
                let answer = text_of(self.plain(), word)?;
                return Ok(Tried { answer, refused });
            }
        }
        Err(AllocError)
    }

    /// Makes a call, which is behind `number` others.
    fn try_call<A, O: Object<A>>(
        &self,
        object: &mut O,
        call: Call<'_>,
        number: usize,
    ) -> Result<Tried, AllocError> {
        if self.line.refusing {
            return self.call_refused(object, call, number);
        }
        let answer = answer_of(self.heap, Refusal::Never, object, call)?;
        Ok(Tried { answer, refused: 0 })
    }

    /// Makes a call for each number of its argument's series.
    fn try_each<A, O: Object<A>>(
        &self,
        object: &mut O,
        verb: &str,
        spread: &Spread<'_>,
        answers: &mut Answers,
    ) -> Result<(), AllocError> {
        for number in &spread.numbers {
            let argument = spread.argument(self.plain(), *number)?;
            let argument = argument.as_str();
            let tried = self.try_call(object, Call { verb, argument }, 0)?;
            answers.push(tried.answer, tried.refused)?;
        }
        Ok(())
    }

    /// Makes the call of a text, which is behind `number` others, and appends its answer.
    fn put_call<A, O: Object<A>>(
        &self,
        object: &mut O,
        text: &str,
        number: usize,
        out: &mut String,
    ) -> Result<(), AllocError> {
        let call = Call::read(text);
        let mut answers = Answers::new(self.plain());
        match spread_of(self.plain(), call.argument) {
            Ok(Some(spread)) => self.try_each(object, call.verb, &spread, &mut answers)?,
            Ok(None) => {
                let tried = self.try_call(object, call, number)?;
                answers.push(tried.answer, tried.refused)?;
            }
            Err(fault) => return put_fault(out, fault),
        }
        self.put_answers(answers, out)
    }

    /// Appends answers, and in a line of refusals how many requests were refused.
    fn put_answers(&self, answers: Answers, out: &mut String) -> Result<(), AllocError> {
        let refused = answers.refused();
        answers.put(out)?;
        if self.line.refusing {
            write!(out, "/{refused}")?;
        }
        Ok(())
    }

    /// Makes the object of the line's settings with its first, its second and each later request refused, until none
    /// is. Returns also how many were, or the word of what is wrong.
    fn make_refused<A: Copy, O: Object<A> + Drop>(
        &self,
        alloc: A,
    ) -> Result<(Result<O, Fault>, u64), &'static str> {
        for refused in 0..u64::MAX {
            self.heap.restart(Refusal::Only(refused));
            let made = O::make(self.plain(), alloc, self.line.settings);
            if self.heap.seen() <= refused {
                return Ok((made, refused));
            }
            match made {
                Err(Fault::Refused(ErrorKind::OutOfMemory)) => {}
                _ => return Err("unreported"),
            }
        }
        Err("unreported")
    }
}

/// Appends the answer of making an object, and behind it how many requests were refused, if that is wanted.
fn put_made<O>(
    made: &Result<O, Fault>,
    refused: Option<u64>,
    out: &mut String,
) -> Result<(), AllocError> {
    match made {
        Ok(_) => out.push_str("made")?,
        Err(fault) => put_fault(out, *fault)?,
    }
    match refused {
        Some(refused) => write!(out, "/{refused}"),
        None => Ok(()),
    }
}

/// Makes the object of a line, and appends `made` or why it isn't.
fn make<A: Copy, O: Object<A> + Drop>(
    driver: Driver<'_, '_>,
    alloc: A,
    out: &mut String,
) -> Result<Option<O>, AllocError> {
    if driver.line.refusing {
        match driver.make_refused::<A, O>(alloc) {
            Ok((made, refused)) => {
                put_made(&made, Some(refused), out)?;
                return Ok(made.ok());
            }
            Err(word) => {
                out.push_str(word)?;
                return Ok(None);
            }
        }
    }
    driver.heap.restart(Refusal::Never);
    let made = O::make(driver.plain(), alloc, driver.line.settings);
    put_made(&made, None, out)?;
    Ok(made.ok())
}

/// Makes the object of a line in a heap, makes its calls, and appends their answers.
pub fn answer_line<A: Copy, O: Object<A> + Drop>(
    heap: &Heap,
    alloc: A,
    line: Line<'_>,
    out: &mut String,
) -> Result<(), AllocError> {
    let driver = Driver { heap, line };
    let Some(mut object) = make::<A, O>(driver, alloc, out)? else {
        return Ok(());
    };
    if line.calls.is_empty() {
        return Ok(());
    }
    for (number, text) in line.calls.split("; ").enumerate() {
        out.push_str("; ")?;
        driver.put_call(&mut object, text, number, out)?;
    }
    Ok(())
}
