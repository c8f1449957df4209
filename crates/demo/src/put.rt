// What the program prints: answers, samples, and what a workspace holds that held 9 throughout. Nothing is proved of the text.
use scope::{Answer, Place, Refusal};
use std::fmt::Display;
use std::io;

// `refusal 12 at slice 0` or, where nothing is refused, the word for that. No Display of a refusal: the text is this program's alone, and an impl
// would have to stand in scope.
pub(crate) fn answer(rt: &impl Print, done: &str, a: Answer) -> io::Result<()> {
    let Err(Refusal(n, place)) = a else {
        return rt.print(done);
    };
    print!(rt; "refusal {n}")?;
    match place {
        Place::Slice(s) => print!(rt; " at slice {s}"),
        Place::Plane(p) => print!(rt; " at plane {p}"),
        Place::Nothing => Ok(()),
    }
}

// A title, then the samples, each after a space.
pub(crate) fn samples<T: Display>(rt: &impl Print, title: &str, samples: &[T]) -> io::Result<()> {
    rt.print(title)?;
    for sample in samples {
        print!(rt; " {sample}")?;
    }
    Ok(())
}

// A title, whether the workspace is now wholly zero, as found, or neither, and the line's end.
pub(crate) fn workspace(rt: &impl Print, title: &str, words: &[u32]) -> io::Result<()> {
    let held = if words.iter().all(|w| *w == 0) {
        "zero"
    } else if words.iter().all(|w| *w == 9) {
        "as found"
    } else {
        "changed"
    };
    println!(rt; "{title} {held}")
}
