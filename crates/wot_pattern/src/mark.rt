//! What each character of an expression means outside of brackets.
//!
//! It uses `specs/Marks.antt`. `parser` takes one step by each mark.
ghost use Rattle.std.specs.Prelude.{◌≡◌};
ghost use Rattle.wot_pattern.specs.Marks.{mark_of};

/// What a character means where an atom or an operator may begin.
#[derive(Clone, Copy)]
pub enum Mark {
    Escape,
    Bracket,
    Open,
    Close,
    Bar,
    Any,
    Start,
    End,
    Star,
    Plus,
    Optional,
    Plain,
}

pub fn mark_of(character: char) -> Mark
    ensures { result ≡ mark_of character }
{
    match character {
        '\\' => Mark::Escape,
        '[' => Mark::Bracket,
        '(' => Mark::Open,
        ')' => Mark::Close,
        '|' => Mark::Bar,
        '.' => Mark::Any,
        '^' => Mark::Start,
        '$' => Mark::End,
        '*' => Mark::Star,
        '+' => Mark::Plus,
        '?' => Mark::Optional,
        _ => Mark::Plain,
    }
}
