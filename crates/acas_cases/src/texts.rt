//! Words as in a shell.
use std::alloc::Global;
use std::process::Abort;

/// The words after `acas` of a command. Spaces part words; a word in single quotes is whole, and may be empty.
pub fn words_of(rt: &impl Abort, alloc: Global, command: &str) -> Vec<String> {
    let mut words = Vec::new(alloc);
    for (index, piece) in command.split('\'').enumerate() {
        if index % 2 == 1 {
            push_word(rt, alloc, &mut words, piece);
        } else {
            for word in piece.split_whitespace() {
                push_word(rt, alloc, &mut words, word);
            }
        }
    }
    assert!(rt;
        !words.is_empty() && words.remove(0).as_str() == "acas",
        "a command begins with acas"
    );
    words
}

fn push_word(rt: &impl Abort, alloc: Global, words: &mut Vec<String>, word: &str) {
    let word = String::from_str(alloc, word).expect(rt, "memory");
    words.push(word).expect(rt, "memory");
}
