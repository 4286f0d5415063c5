//! The words of a table's row: data models, integer types and numbers, as they are written in code.

use cs_types::{DataModel, IntType};
use std::process::Abort;
use std::str::SplitAsciiWhitespace;

/// Returns the next data model of a row.
pub fn model(rt: &impl Abort, words: &mut SplitAsciiWhitespace) -> DataModel {
    match word(rt, words) {
        "Lp64" => DataModel::Lp64,
        "Ilp32" => DataModel::Ilp32,
        other => unknown(rt, other, DataModel::Lp64),
    }
}

/// Returns the next integer type.
pub fn integer_type(rt: &impl Abort, words: &mut SplitAsciiWhitespace) -> IntType {
    match word(rt, words) {
        "Char" => IntType::Char,
        "SChar" => IntType::SChar,
        "UChar" => IntType::UChar,
        "Short" => IntType::Short,
        "UShort" => IntType::UShort,
        "Int" => IntType::Int,
        "UInt" => IntType::UInt,
        "Long" => IntType::Long,
        "ULong" => IntType::ULong,
        "LLong" => IntType::LLong,
        "ULLong" => IntType::ULLong,
        other => unknown(rt, other, IntType::Char),
    }
}

/// Returns the next number, or None for another word.
pub fn number_if_any(words: &mut SplitAsciiWhitespace) -> Option<i128> {
    words.next()?.parse::<i128>().ok()
}

/// Returns the next number.
pub fn number(rt: &impl Abort, words: &mut SplitAsciiWhitespace) -> i128 {
    let word = word(rt, words);
    match word.parse::<i128>() {
        Ok(number) => number,
        Err(_) => unknown(rt, word, 0),
    }
}

fn word<'a>(rt: &impl Abort, words: &mut SplitAsciiWhitespace<'a>) -> &'a str {
    match words.next() {
        Some(word) => word,
        None => unknown(rt, "a row is short", ""),
    }
}

fn unknown<T: Drop>(rt: &impl Abort, word: &str, instead: T) -> T {
    assert!(rt; false, "{word}");
    instead
}
