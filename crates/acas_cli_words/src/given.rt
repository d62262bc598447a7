//! The words that the system gives the program.
use std::env;
use std::io::ErrorKind;

/// Why there are no words.
#[derive(Clone, Copy)]
pub enum NoWords {
    /// They found no memory.
    Memory,
    /// The system refuses them, as it does where one is no text.
    Refused,
}

/// The words after the program's name. The system's call promises nothing of what they are, so no clause speaks of them.
pub fn given_words(rt: &(impl std::rt::Env + AllocGlobal)) -> Result<Vec<String>, NoWords> {
    let all = match env::args(rt) {
        Ok(all) => all,
        Err(error) => {
            if error.kind() == ErrorKind::OutOfMemory {
                return Err(NoWords::Memory);
            }
            return Err(NoWords::Refused);
        }
    };
    let mut words = Vec::new(rt.alloc());
    for word in all.skip(1) {
        if words.push(word).is_err() {
            return Err(NoWords::Memory);
        }
    }
    Ok(words)
}
