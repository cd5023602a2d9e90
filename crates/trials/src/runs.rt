// What a run asks for, by the number in its head.
use reports::lists::List;

#[derive(Clone, Copy)]
pub enum Call {
    Check,
    Build,
    Tape,
    Scan,
    Lookup,
    Page,
    Sweep,
    Count,
}

// A change of a list of what is lent, or a call.
#[derive(Clone, Copy)]
pub enum Kind {
    Change(List),
    Make(Call),
}

// Of the numbers that no kind has, 0 is taken for counts, and the others for a page.
impl From<u16> for Kind {
    fn from(n: u16) -> Kind {
        match n {
            0 | 11 => Kind::Change(List::Counts),
            1 => Kind::Change(List::Words),
            2 => Kind::Change(List::Values),
            3 => Kind::Change(List::Numbers),
            4 => Kind::Make(Call::Check),
            5 => Kind::Make(Call::Build),
            6 => Kind::Make(Call::Tape),
            7 => Kind::Make(Call::Scan),
            8 => Kind::Make(Call::Lookup),
            10 => Kind::Make(Call::Sweep),
            12 => Kind::Make(Call::Count),
            _ => Kind::Make(Call::Page),
        }
    }
}
