//! The numbers of a question.

/// The first three numbers of a text, in decimal and a blank apart; one that isn't there is 0.
pub fn numbers(text: &str) -> [u32; 3] {
    let mut words = text.split(' ');
    [
        number(words.next()),
        number(words.next()),
        number(words.next()),
    ]
}

fn number(word: Option<&str>) -> u32 {
    word.and_then(|word| word.parse().ok()).unwrap_or(0)
}
