//! Tokens, positions and refusals of small texts, and the limit of tokens.
use cs_ast::{IntegerConstant, Keyword, Length, Place, Punctuator, Unsupported};
use cs_lexer::{LexRefusal, Lexed, Token, TokenKind, tokens};
use cs_limits::MOST_BYTES;
use cs_names::Name;
use std::alloc::{AllocError, Global};
use std::process::Abort;
use std::str;
use std::test::Fail;

/// Returns the tokens of a text, after a test of its length.
pub(crate) fn lexed(alloc: Global, text: &[u8]) -> Result<Lexed, LexRefusal> {
    if text.len() > MOST_BYTES {
        return Err(LexRefusal::Memory);
    }
    tokens(alloc, text)
}

// Returns a fault as text: its name, the line and the column, the number of the file, and its name.
fn fault_text(alloc: Global, fault: &str, at: Place, file: &Name) -> Result<String, AllocError> {
    let name = str::from_utf8(file.as_bytes()).unwrap_or("?");
    format!(in alloc; "{fault} {}:{} of {} {name}", at.line, at.column, at.file)
}

fn refusal_text(alloc: Global, refusal: &LexRefusal) -> Result<String, AllocError> {
    match refusal {
        LexRefusal::BadByte(place, file) => fault_text(alloc, "BadByte", *place, file),
        LexRefusal::Unclosed(place, file) => fault_text(alloc, "Unclosed", *place, file),
        LexRefusal::WideNumber(place, file) => fault_text(alloc, "WideNumber", *place, file),
        LexRefusal::BadLine(place, file) => fault_text(alloc, "BadLine", *place, file),
        LexRefusal::TooManyTokens => String::from_str(alloc, "TooManyTokens"),
        LexRefusal::Memory => String::from_str(alloc, "Memory"),
    }
}

// Returns the refusal of a text, or a word if it has tokens.
fn refusal_of(alloc: Global, text: &[u8]) -> Result<String, AllocError> {
    match lexed(alloc, text) {
        Ok(_) => String::from_str(alloc, "taken"),
        Err(refusal) => refusal_text(alloc, &refusal),
    }
}

fn number(value: u64, decimal: bool, unsigned: bool, length: Length) -> TokenKind {
    TokenKind::Number(IntegerConstant {
        value,
        decimal,
        unsigned,
        length,
    })
}

// Tests that a text is one token of this kind.
fn assert_kind(rt: &impl Abort, alloc: Global, text: &str, kind: TokenKind) -> Result<(), Fail> {
    let found = lexed(alloc, text.as_bytes())?;
    let place = Place {
        file: 0,
        line: 1,
        column: 1,
    };
    let list = [Token { kind, place }];
    assert!(rt; found.list.as_slice() == list.as_slice(), "{text}");
    assert_eq!(rt; found.end.column as usize, 1 + text.len(), "{text}");
    Ok(())
}

fn unsupported(word: Unsupported) -> TokenKind {
    TokenKind::Unsupported(word)
}

fn assert_words(rt: &impl Abort, alloc: Global) -> Result<(), Fail> {
    assert_kind(rt, alloc, "while", TokenKind::Keyword(Keyword::While))?;
    assert_kind(
        rt,
        alloc,
        "_Static_assert",
        unsupported(Unsupported::StaticAssert),
    )?;
    assert_kind(rt, alloc, "__int128", unsupported(Unsupported::Int128))?;
    assert_kind(rt, alloc, "__attribute__", TokenKind::Attribute)
}

const GREATEST: u64 = 18446744073709551615;

fn assert_numbers(rt: &impl Abort, alloc: Global) -> Result<(), Fail> {
    assert_kind(rt, alloc, "0", number(0, false, false, Length::Plain))?;
    assert_kind(rt, alloc, "42", number(42, true, false, Length::Plain))?;
    assert_kind(rt, alloc, "0777", number(511, false, false, Length::Plain))?;
    assert_kind(rt, alloc, "0XfFuL", number(255, false, true, Length::Long))?;
    let text = "18446744073709551615LLU";
    assert_kind(
        rt,
        alloc,
        text,
        number(GREATEST, true, true, Length::LongLong),
    )
}

fn assert_characters(rt: &impl Abort, alloc: Global) -> Result<(), Fail> {
    for (text, value) in [
        ("'a'", 97),
        ("'\\0'", 0),
        ("'\\377'", -1),
        ("'\\x80'", -128),
        ("'\\''", 39),
        ("'\"'", 34),
    ] {
        assert_kind(rt, alloc, text, TokenKind::Character(value))?;
    }
    Ok(())
}

fn assert_punctuators(rt: &impl Abort, alloc: Global) -> Result<(), Fail> {
    for (text, punctuator) in [
        ("->", Punctuator::Arrow),
        (">>=", Punctuator::ShiftRightEqual),
        ("...", Punctuator::Ellipsis),
        ("/", Punctuator::Slash),
    ] {
        assert_kind(rt, alloc, text, TokenKind::Punctuator(punctuator))?;
    }
    Ok(())
}

#[test]
fn a_token_has_its_kind(rt: HostRuntime) -> Result<(), Fail> {
    assert_words(&rt, rt.alloc())?;
    assert_numbers(&rt, rt.alloc())?;
    assert_characters(&rt, rt.alloc())?;
    assert_punctuators(&rt, rt.alloc())
}

/// Texts that can't be split into tokens, each with its first fault, the line and the column. Lines `--` separate them.
const FAULTS: &str = "\0 => BadByte 1:1
--
x # 1 => BadByte 1:3
--
/* a */ # 1 => BadByte 1:9
--
\x0c# 1 => BadByte 1:2
--
08 => BadByte 1:2
--
0x => BadByte 1:2
--
1.5 => BadByte 1:2
--
1lul => BadByte 1:4
--
'' => BadByte 1:1
--
'ab' => BadByte 1:3
--
'\\q' => BadByte 1:2
--
'\\1234' => BadByte 1:6
--
'a\\xfff' => BadByte 1:3
--
\"a\\x\" => BadByte 1:3
--
a
\t@ ' => BadByte 2:2
--
/* x => Unclosed 1:1
--
/*/ => Unclosed 1:1
--
'ab
' => Unclosed 1:1
--
'\\
' => Unclosed 1:1
--


  \"\\q
b\" => Unclosed 3:3
--
int x = 18446744073709551616; => WideNumber 1:9
--
9223372036854775808 => WideNumber 1:1
--
99999999999999999999x => WideNumber 1:1
--
'\\400' => WideNumber 1:2
--
\"\\x00100\" => WideNumber 1:2
--
# => BadLine 1:1
--
 # 1 2 => BadLine 1:2
--
#line5 => BadLine 1:1
--
# 1\"x\" => BadLine 1:1
--
# 1 \"x => BadLine 1:1
--
# 2147483648 \"a\" => BadLine 1:1";

// Returns those texts of a table of texts and faults that have another refusal.
fn refused_otherwise(alloc: Global, table: &str) -> Result<String, AllocError> {
    let mut found = String::new(alloc);
    for row in table.split("\n--\n") {
        let (text, fault) = row.split_once(" => ").unwrap_or((row, ""));
        let wanted = format!(in alloc; "{fault} of 0 <input>")?;
        let refusal = refusal_of(alloc, text.as_bytes())?;
        if refusal != wanted {
            found.push_str(text)?;
            found.push('\n')?;
        }
    }
    Ok(found)
}

#[test]
fn a_bad_text_is_refused_at_its_first_fault(rt: HostRuntime) -> Result<(), Fail> {
    let found = refused_otherwise(rt.alloc(), FAULTS)?;
    assert_eq!(rt; found.as_str(), "");
    Ok(())
}

#[test]
fn a_refusal_names_its_file(rt: HostRuntime) -> Result<(), Fail> {
    let refusal = refusal_of(rt.alloc(), b"x\n# 7 \"a.h\"\n  @")?;
    assert_eq!(rt; refusal.as_str(), "BadByte 7:3 of 1 a.h");
    Ok(())
}

const LINKED: &str = "# 0 \"list.c\"
# 0 \"<built-in>\"
# 0 \"<command-line>\"
# 1 \"list.c\"
# 1 \"list.h\" 1
struct node
{
    int value;
    struct node *next;
};

extern int keep(int value);
static inline int value_of(const struct node *n) { return n->value; }
# 2 \"list.c\" 2

int drop_second(struct node *head)
{
    struct node *gone;

    gone = head->next;
    if (keep(gone->value))
        return 0;
    head->next = gone->next;
    gone->next = 0;
    return 1;
}
";

// Returns the names of a text's files.
fn names_text(alloc: Global, found: &Lexed) -> Result<String, AllocError> {
    let mut text = String::new(alloc);
    for name in &found.files {
        let name = str::from_utf8(name.as_bytes()).unwrap_or("?");
        write!(text, "{name} ")?;
    }
    Ok(text)
}

// Returns the positions of a text's arrows and of its end: the number of the file, the line and the column.
fn places_text(alloc: Global, found: &Lexed) -> Result<String, AllocError> {
    let mut text = String::new(alloc);
    for token in &found.list {
        if token.kind == TokenKind::Punctuator(Punctuator::Arrow) {
            let Place { file, line, column } = token.place;
            write!(text, "{file}:{line}:{column} ")?;
        }
    }
    let Place { file, line, column } = found.end;
    write!(text, "end {file}:{line}:{column}")?;
    Ok(text)
}

fn assert_places(rt: &impl Abort, alloc: Global, found: &Lexed) -> Result<(), AllocError> {
    let names = names_text(alloc, found)?;
    let wanted = "<input> list.c <built-in> <command-line> list.h ";
    assert_eq!(rt; names.as_str(), wanted);
    let places = places_text(alloc, found)?;
    let wanted = "4:8:60 1:7:16 1:8:18 1:10:9 1:10:22 1:11:9 end 1:14:1";
    assert_eq!(rt; places.as_str(), wanted);
    Ok(())
}

#[test]
fn linemarkers_give_places(rt: HostRuntime) -> Result<(), Fail> {
    let found = lexed(rt.alloc(), LINKED.as_bytes())?;
    assert_places(&rt, rt.alloc(), &found)?;
    Ok(())
}

/// Texts with parts that are dropped, how many tokens they have, and the line and the column of their ends. Lines `--` separate them.
const DROPPED: &str = " => 0 1:1
--
 \t\r
\x0b\x0c // x => 0 2:8
--
extern inline x __const; => 2 1:25
--
\"a\" /* b */ __extension__
\"c\" 'd' => 2 2:8
--
int __attribute__((a, (b))) x __attribute__ y ( => 5 1:48
--
__attribute__ __attribute ( __attribute__ ( ) ) ( ( => 3 1:52
--
__attribute__ ( __attribute__ ( x ) y => 3 1:38
--
# pragma ' @
#pragmatic
; => 1 3:2
--
  # line 7 
; => 1 7:2
--
# 9 \"\\<input>\" 3 4
; => 1 9:2
--
;
# 9 \"x\" => 1 2:8";

// Returns the number of a text's tokens, and where it ends.
fn counted(alloc: Global, text: &str) -> Result<String, AllocError> {
    match lexed(alloc, text.as_bytes()) {
        Ok(Lexed { list, end, .. }) => {
            format!(in alloc; "{} {}:{}", list.len(), end.line, end.column)
        }
        Err(refusal) => refusal_text(alloc, &refusal),
    }
}

// Returns those texts of a table of texts, counts and ends that have others.
fn counted_otherwise(alloc: Global, table: &str) -> Result<String, AllocError> {
    let mut found = String::new(alloc);
    for row in table.split("\n--\n") {
        let (text, wanted) = row.split_once(" => ").unwrap_or((row, ""));
        let counted = counted(alloc, text)?;
        if counted.as_str() != wanted {
            found.push_str(text)?;
            found.push('\n')?;
        }
    }
    Ok(found)
}

#[test]
fn dropped_words_leave_no_token(rt: HostRuntime) -> Result<(), Fail> {
    let found = counted_otherwise(rt.alloc(), DROPPED)?;
    assert_eq!(rt; found.as_str(), "");
    Ok(())
}

// Returns the refusal of this many semicolons followed by more bytes, or a word if they aren't refused.
fn refused(alloc: Global, count: usize, following: &str) -> Result<String, Fail> {
    let mut text = vec![in alloc; b';'; count]?;
    text.extend_from_slice(following.as_bytes())?;
    Ok(refusal_of(alloc, text.as_slice())?)
}

#[test]
fn tokens_are_counted_to_their_limit(rt: HostRuntime) -> Result<(), Fail> {
    for (count, following, wanted) in [
        (400_000, " // x", "taken"),
        (400_001, "", "TooManyTokens"),
        (400_000, "1x", "TooManyTokens"),
        (400_000, "'", "Unclosed 1:400001 of 0 <input>"),
    ] {
        let refusal = refused(rt.alloc(), count, following)?;
        assert_eq!(rt; refusal.as_str(), wanted, "{following}");
    }
    Ok(())
}
