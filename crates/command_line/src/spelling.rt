//! How words are handed to clap.
ghost use Rattle.std.specs.Prelude.{◌≡◌, ◌++◌, IfOk, OnOk, option_map};
ghost use Rattle.command_line.specs.Request.{texts};
ghost use Rattle.command_line.specs.Spelling.{attached, is_end, spelled, spelled_line, spelled_word};

use std::alloc::{AllocError, Global};

/// The text that is attached to an option in a word, where it begins with `=`.
fn attached<'a>(word: &'a str, option: &str) -> Option<&'a str>
    ensures { option_map (λ text. text.now) result ≡ attached option.now word.now }
{
    match word.strip_prefix(option) {
        Some(text) if text.starts_with("=") => Some(text),
        _ => None,
    }
}

/// Adds a word, or the two words that it is.
fn push_spelled<'a>(line: &mut Vec<&'a str>, word: &'a str) -> Result<(), AllocError>
    ensures { OnOk result (texts line.new.items ≡ texts line.old.items ++ spelled_word word.now) }
{
    if let Some(text) = attached(word, "-F") {
        line.push("-F")?;
        line.push(text)?;
    } else if let Some(text) = attached(word, "-v") {
        line.push("-v")?;
        line.push(text)?;
    } else {
        line.push(word)?;
    }
    Ok(())
}

/// Adds words; those after `--` are no options.
#[tactic(auto, unfolding(crate::specs::Spelling::spelled))]
fn push_all<'a>(line: &mut Vec<&'a str>, words: &[&'a str]) -> Result<(), AllocError>
    ensures { OnOk result
        (texts line.new.items ≡ texts line.old.items ++ spelled (texts words.now)) }
{
    let mut ended = false;
    for word in words {
        ended = ended || *word == "--";
        if ended {
            line.push(word)?;
        } else {
            push_spelled(line, word)?;
        }
    }
    Ok(())
}

/// The words of a line as [`request_of`](crate::request_of) takes them: a text that is attached to `-F` or `-v` and begins with `=` is a word of its own. So
/// `-F=` separates fields by `=`. The first word is the program's name.
///
/// # Errors
///
/// Where memory is wanting.
pub fn spelled_line<'a>(alloc: Global, words: &[&'a str]) -> Result<Vec<&'a str>, AllocError>
    ensures { IfOk result (λ line. texts line.items ≡ spelled_line (texts words.now)) }
{
    let mut line = Vec::new(alloc);
    if let Some((name, rest)) = words.split_first() {
        line.push(*name)?;
        push_all(&mut line, rest)?;
    }
    Ok(line)
}
