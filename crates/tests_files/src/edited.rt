//! Which token is refused, and why, in the beginnings of a file and in the file with one token changed. `data/chart.py` makes the
//! tables, with a chart parser that interprets the grammar as it is written.

use crate::front::{Reported, front, in_words};
use std::alloc::{AllocError, Global};
use std::process::Abort;
use std::test::Fail;

/// A linked list and two functions on it: the tokens of the file, with a space after each.
const FILE: &str =
    "struct node { int value ; struct node * next ; } ; int keep ( int value ) ; static int value_of ( const struct \
    node * n ) { return n -> value ; } int drop_second ( struct node * head ) { struct node * gone ; gone = head \
    -> next ; if ( keep ( gone -> value ) ) return 0 ; head -> next = gone -> next ; gone -> next = 0 ; return 1 ; \
    } ";

/// The number of its tokens.
const TOKENS: usize = 87;

/// The numbers of tokens at the beginning of the file that are a file themselves.
const FILES: [usize; 5] = [0, 13, 20, 37, 87];

/// For each change: the change; for each token of the file the number of the token that is refused if that one is changed, or `A` if the
/// whole file is accepted; and the numbers of the tokens whose change makes the refused token an unsupported punctuator. A token is removed,
/// doubled, or replaced.
const EDITS: &str =
    "removed: 0 A 2 3 4 5 6 7 A 9 10 11 12 13 14 15 16 A 18 19 A 21 22 23 A 25 26 A 29 29 30 A 32 33 34 35 38 37 38 39 40 41 A 44 44 45 A 47 A 49 50 51 52 53 54 55 56 65 58 A 60 61 62 63 65 65 A A 68 69 70 71 72 73 74 75 76 77 78 79 80 81 82 A A 85 86: 14 22 38
twice: 1 3 3 4 5 6 7 9 A 10 11 12 13 14 15 16 17 18 19 20 A 22 23 24 A 26 28 A 29 30 40 32 33 34 35 A 37 38 39 40 41 43 A 44 45 88 47 49 A 50 A 52 53 54 55 56 A 58 67 60 67 62 63 64 66 66 67 68 A 70 71 72 73 74 75 76 A 78 79 80 81 82 A 84 85 A 87: 
;: 0 1 11 3 4 A 6 7 8 9 A 11 A 13 15 18 16 17 18 A 20 21 23 29 24 25 26 27 28 29 31 A 33 A 34 A 39 37 39 44 40 41 42 43 44 51 A 47 48 49 A 52 A 53 A 55 A 66 58 59 60 61 62 63 64 65 A A A 70 A 71 A 73 A 75 A 78 A 79 A 81 A A A A 87: 
(: 0 1 2 3 4 5 6 7 8 9 10 11 12 13 14 A 16 17 18 19 20 21 22 A 24 25 26 27 28 29 30 35 33 35 34 36 38 37 38 A 40 41 42 43 44 45 50 47 48 49 50 52 56 54 56 55 57 66 A 66 A 62 66 63 66 66 68 68 76 70 76 71 76 74 76 75 82 78 82 79 82 82 83 85 85 86 87: 2 4 8 9 12 14 17 22 27 28 38 42 43 48 49
x: 0 A 3 3 A 5 6 A 9 A 10 11 13 13 A 15 16 A 18 19 20 21 A 23 24 25 A 28 A 29 30 32 A 33 A 35 37 37 A 39 40 A 43 A 44 45 47 A 49 A 50 A 52 A 54 A 56 66 58 A 60 A 62 A 64 65 67 A 68 A 70 A 72 A 74 A 76 A 78 A 80 A 82 84 A 85 87: 
,: 0 1 2 3 4 6 6 7 8 9 11 11 12 13 14 16 16 18 19 19 20 21 22 24 24 25 26 28 29 30 30 31 32 A 34 36 36 37 38 40 40 41 43 44 45 45 46 47 48 49 A 51 A 53 A 55 57 57 58 59 65 61 A 63 65 66 66 67 A 69 A 71 A 73 A 75 A 77 A 79 A 81 83 83 84 86 86: ";

/// Adds a token.
fn push_token(text: &mut String, token: &str) -> Result<(), AllocError> {
    text.push_str(token)?;
    text.push(' ')
}

/// Adds a changed token.
fn push_changed(text: &mut String, token: &str, change: &str) -> Result<(), AllocError> {
    match change {
        "removed" => Ok(()),
        "twice" => {
            push_token(text, token)?;
            push_token(text, token)
        }
        other => push_token(text, other),
    }
}

/// Returns the tokens of the file, with the token with a number changed.
fn edited(alloc: Global, change: &str, at: usize) -> Result<String, AllocError> {
    let mut text = String::new(alloc);
    for (number, token) in FILE.split_ascii_whitespace().enumerate() {
        if number == at {
            push_changed(&mut text, token, change)?;
        } else {
            push_token(&mut text, token)?;
        }
    }
    Ok(text)
}

/// Returns this many tokens at the beginning of the file.
fn beginning(alloc: Global, count: usize) -> Result<String, AllocError> {
    let mut text = String::new(alloc);
    for token in FILE.split_ascii_whitespace().take(count) {
        push_token(&mut text, token)?;
    }
    Ok(text)
}

/// Returns the refusal of a line, in words; nothing if it is a file. The end of input is a token.
fn refused(alloc: Global, text: &str) -> Result<String, AllocError> {
    match front(alloc, text) {
        Reported::NoTokens => String::from_str(alloc, "no tokens"),
        Reported::Refused(refusal) => in_words(alloc, &refusal),
        Reported::File(_) => Ok(String::new(alloc)),
    }
}

/// Returns the refusal of a line at the token with a number, in words.
fn expected(
    alloc: Global,
    line: &str,
    number: usize,
    is_unsupported: bool,
) -> Result<String, AllocError> {
    let mut tokens = line.split_ascii_whitespace();
    let mut column = 1usize;
    for _ in 0..number {
        if let Some(token) = tokens.next() {
            column = column.wrapping_add(token.len()).wrapping_add(1);
        }
    }
    match tokens.next() {
        Some(word) if is_unsupported => format!(in alloc; "left out {word} 1:{column}"),
        _ => format!(in alloc; "syntax 1:{column}"),
    }
}

/// Tests that a line is refused at the token with a number, or is a file if there is no number.
fn assert_refused(
    rt: &impl Abort,
    alloc: Global,
    line: &str,
    number: Option<usize>,
    is_unsupported: bool,
) -> Result<(), AllocError> {
    let found = refused(alloc, line)?;
    let wanted = match number {
        Some(number) => expected(alloc, line, number, is_unsupported)?,
        None => String::new(alloc),
    };
    assert_eq!(rt; found.as_str(), wanted.as_str(), "{line}");
    Ok(())
}

#[test]
fn refuses_each_beginning_at_its_end(rt: HostRuntime) -> Result<(), Fail> {
    assert_eq!(rt; FILE.split_ascii_whitespace().count(), TOKENS);
    for count in 0..=TOKENS {
        let line = beginning(rt.alloc(), count)?;
        let number = if FILES.contains(&count) {
            None
        } else {
            Some(count)
        };
        assert_refused(&rt, rt.alloc(), &line, number, false)?;
    }
    Ok(())
}

/// Whether a list of numbers contains a number.
fn is_listed(list: &str, number: usize) -> bool {
    for word in list.split_ascii_whitespace() {
        if word.parse::<usize>().ok() == Some(number) {
            return true;
        }
    }
    false
}

/// Returns the number of the refused token, None for `A`.
fn refused_number(rt: &impl Abort, word: &str) -> Option<usize> {
    let number = word.parse::<usize>().ok();
    assert!(rt; word == "A" || number.is_some(), "{word}");
    number
}

/// Tests a row of the table. Returns the number of tokens that it has.
fn assert_edits(rt: &impl Abort, alloc: Global, row: &str) -> Result<usize, AllocError> {
    let (change, rest) = row.split_once(": ").unwrap_or(("", ""));
    let (numbers, unsupported) = rest.split_once(": ").unwrap_or(("", ""));
    let mut at = 0usize;
    for word in numbers.split_ascii_whitespace() {
        let line = edited(alloc, change, at)?;
        let number = refused_number(rt, word);
        assert_refused(rt, alloc, &line, number, is_listed(unsupported, at))?;
        at = at.saturating_add(1);
    }
    Ok(at)
}

#[test]
fn refuses_a_changed_file_at_the_token_that_a_chart_parser_finds(
    rt: HostRuntime,
) -> Result<(), Fail> {
    for row in EDITS.lines() {
        assert_eq!(rt; assert_edits(&rt, rt.alloc(), row)?, TOKENS);
    }
    Ok(())
}
