//! The words behind the program's name.

/// What an emulator begins with.
#[derive(Clone, Copy)]
pub enum Begin {
    /// A TPM that power never came to.
    New,
    /// No TPM: the host gives its blobs.
    Empty,
}

/// `emulator CTRL DATA new` or `emulator CTRL DATA empty`.
#[derive(Clone, Copy)]
pub struct EmulatorCommand {
    pub ctrl: u16,
    pub data: u16,
    pub begin: Begin,
}

/// The command that the words are, if they are one.
pub fn parse_words(words: &[String]) -> Option<EmulatorCommand> {
    if words.len() != 4 || words[0].as_str() != "emulator" {
        return None;
    }
    Some(EmulatorCommand {
        ctrl: parse_port(words[1].as_str())?,
        data: parse_port(words[2].as_str())?,
        begin: match words[3].as_str() {
            "new" => Begin::New,
            "empty" => Begin::Empty,
            _ => return None,
        },
    })
}

// A port is 1 to 65535, in decimal without sign or leading zero.
fn parse_port(word: &str) -> Option<u16> {
    match word.as_bytes().first() {
        Some(b'1'..=b'9') => word.parse().ok(),
        _ => None,
    }
}
