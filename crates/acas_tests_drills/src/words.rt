//! The words that name drills.
use acas_drill_model::drill_number;

const NUMBERS: [(&str, u32); 6] = [
    ("0", 0),
    ("7", 7),
    ("10", 10),
    ("112", 112),
    ("4294967", 4_294_967),
    ("999999999", 999_999_999),
];

#[test]
fn words_of_numbers(rt: HostRuntime) {
    for (word, number) in NUMBERS {
        assert!(rt; drill_number(word) == Some(number), "{word}");
    }
}

const OTHERS: [&str; 21] = [
    "",
    "07",
    "00",
    "-0",
    "-7",
    "+7",
    " 7",
    "7 ",
    "7\n",
    "7a",
    "0x7",
    "1e3",
    "7.0",
    "1_000",
    "seven",
    "٧",
    "1000000000",
    "4294967295",
    "4294967296",
    "4294967303",
    "18446744073709551616",
];

#[test]
fn other_words(rt: HostRuntime) {
    for word in OTHERS {
        assert!(rt; drill_number(word) == None, "{word}");
    }
}
