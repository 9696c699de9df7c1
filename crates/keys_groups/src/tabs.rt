//! Lines that are cut at their last tab.
ghost use Rattle.std.specs.Prelude.{◌≡◌, true, false, IfSome, IfNone};
ghost use Rattle.keys_groups.specs.Tabs.{has_tab, before_tab, behind_tab};

/// The parts of a line before and after its last tab, if it has one.
pub(crate) fn cut_last(line: &[u8]) -> Option<(&[u8], &[u8])>
    ensures some { IfSome result (λ parts. has_tab line.now ≡ true) }
    ensures name { IfSome result (λ parts. parts.0.now ≡ before_tab line.now) }
    ensures digits { IfSome result (λ parts. parts.1.now ≡ behind_tab line.now) }
    ensures none { IfNone result (has_tab line.now ≡ false) }
{
    let mut left = line;
    while let Some((last, front)) = left.split_last() {
        if *last == b'\t' {
            let (_, behind) = line.split_at(left.len());
            return Some((front, behind));
        }
        left = front;
    }
    None
}
