// What the program says.
use rule::refusals::{ReadError, Refusal};
use std::io;

pub fn yes_or_no(yes: bool) -> &'static str {
    if yes { "yes" } else { "no" }
}

pub fn print_answer(rt: &impl Print, answer: Result<(), ReadError>) -> io::Result<()> {
    match answer {
        Ok(()) => print!(rt; "accepted"),
        Err(error) => {
            let number = u32::from(Refusal::from(error));
            print!(rt; "refused {number}, block {}", error.block())
        }
    }
}
