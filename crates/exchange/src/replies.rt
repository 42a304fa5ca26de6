// The answers of the two sites to one list of calls.
use crate::shown::{Shown, Written};
use calls::Answer;
use std::fmt;
use tally::Tally;

// A call in words, and what each site answered, if it did.
#[derive(Drop)]
pub struct Reply<E> {
    pub words: &'static str,
    pub office: Option<Answer<E>>,
    pub router: Option<Answer<E>>,
}

// How many answers are the same at both sites. An answer that is missing is not the same as any.
pub fn compared<E: Shown>(replies: &[Reply<E>]) -> Tally {
    let is_same = |reply: &Reply<E>| reply.office.is_some() && reply.office == reply.router;
    Tally::of(replies.iter().map(is_same))
}

// An answer in words.
#[derive(Drop)]
pub struct Told<E>(pub Answer<E>);

impl<E: Shown> fmt::Display for Told<E> {
    fn fmt<W: fmt::Write>(&self, f: &mut fmt::Formatter<W>) -> fmt::Result {
        let (word, number) = match self.0 {
            Answer::Done => return f.pad("done"),
            Answer::NotOffered => return f.pad("not offered"),
            Answer::Entry(value) => {
                let entry = Written(value);
                let rest = room_after("entry", f.width());
                return write!(f, "entry {entry:<rest$}");
            }
            Answer::Made(count) => ("made", count),
            Answer::ToMake(count) => ("to make", count),
            Answer::Refused(refusal) => ("refusal", u64::from(refusal.number())),
        };
        let rest = room_after(word, f.width());
        write!(f, "{word} {number:<rest$}")
    }
}

// How much of a width is left after a word and a space. The width is taken apart, since padding the whole would need a
// String, and `fmt` has no heap.
fn room_after(word: &str, width: Option<usize>) -> usize {
    width
        .unwrap_or(0)
        .saturating_sub(word.len())
        .saturating_sub(1)
}
