// Lines, words of each class, and updates, with what is read of each.
use guarded_update::Action;
use pond_base::{Items, Label, Name};
use script_terms::{LineClause, LineFault};
use script_words::{
    PartyNumber, clauses, data, groups, is_comment, is_plain_line, label, name, number, party,
    split_line, words,
};
use std::alloc::Global;
use std::test::Fail;

// What a text is read as.
#[derive(Clone, Copy)]
enum Class {
    Line,
    Number,
    Party,
    Label,
    Name,
    Content,
    Update,
}

// Of a line that follows: its words, what follows it, whether it is plain, and whether it begins as a
// comment does. Of an update: how many clauses, guards and actions it has, and how many bytes of content.
// Of a word the value that it spells. Or the cause for which it is refused.
const CASES: &[(Class, &str, &str)] = &[
    (
        Class::Line,
        " read  0 a\n# x",
        "read|0|a|# x plain true comment false",
    ),
    (Class::Line, "#x", "#x| plain true comment true"),
    (Class::Line, "x#\n", "x#| plain true comment false"),
    (Class::Line, "a\tb\n", "a\tb| plain false comment false"),
    (Class::Number, "0", "0"),
    (Class::Number, "42", "42"),
    (Class::Number, "4294967295", "4294967295"),
    (Class::Number, "4294967296", "word"),
    (Class::Number, "00", "word"),
    (Class::Number, "-1", "word"),
    (Class::Party, "m0", "member 0"),
    (Class::Party, "c15", "client 15"),
    (Class::Party, "m4294967295", "member 4294967295"),
    (Class::Party, "m", "word"),
    (Class::Party, "m00", "word"),
    (Class::Party, "C0", "word"),
    (Class::Party, "0", "word"),
    (Class::Party, "", "word"),
    (Class::Label, "a_1", "615f31"),
    (Class::Label, "A", "word"),
    (
        Class::Name,
        "00112233445566778899aAbBcCdDeEfF01234567",
        "00112233445566778899aabbccddeeff01234567",
    ),
    (
        Class::Name,
        "00112233445566778899aAbBcCdDeEfF0123456",
        "word",
    ),
    (
        Class::Name,
        "00112233445566778899aAbBcCdDeEfF012345678",
        "word",
    ),
    (
        Class::Name,
        "00112233445566778899aAbBcCdDeEfF0123456789",
        "word",
    ),
    (
        Class::Name,
        "00112233445566778899aAbBcCdDeEfF0123456g",
        "word",
    ),
    (Class::Name, "", "word"),
    (Class::Content, "6869", "6869"),
    (Class::Content, "fF", "ff"),
    (Class::Content, "gen:0:4", "3c47d1aa"),
    (Class::Content, "gen:0:0", "word"),
    (Class::Content, "gen:0:65537", "word"),
    (Class::Content, "gen:0", "word"),
    (Class::Content, "686", "word"),
    (Class::Content, "6g", "word"),
    (Class::Update, "append 6869", "1 0 1 2"),
    (
        Class::Update,
        "append 61 + truncate 0 + delete 3 1",
        "1 0 3 1",
    ),
    (
        Class::Update,
        "if version 1 and size 2 then replace 0 00",
        "1 2 1 1",
    ),
    (
        Class::Update,
        "if block 0 61 then splice 0 1 6263 or append gen:7:9",
        "2 1 2 11",
    ),
    (Class::Update, "append or", "word"),
    (Class::Update, "append 61 or", "words"),
    (Class::Update, "if version 1 then", "words"),
    (Class::Update, "if then append 61", "words"),
    (Class::Update, "append 61 62", "words"),
    (Class::Update, "", "words"),
];

fn told(alloc: Global, class: Class, text: &str) -> Result<String, Fail> {
    match class {
        Class::Line => told_line(alloc, text),
        Class::Number => told_number(alloc, number(text.as_bytes())),
        Class::Party => told_party(alloc, party(text.as_bytes())),
        Class::Label => told_label(alloc, label(text.as_bytes())),
        Class::Name => told_name(alloc, name(text.as_bytes())),
        Class::Content => told_content(alloc, text),
        Class::Update => told_update(alloc, text),
    }
}

// The cause for which a text is refused.
fn refused(alloc: Global, fault: LineFault) -> Result<String, Fail> {
    match fault {
        LineFault::Refused(cause) => Ok(format!(in alloc; "{cause}")?),
        LineFault::Memory => Err(Fail::new("memory ran out")),
    }
}

fn digits(alloc: Global, bytes: &[u8]) -> Result<String, Fail> {
    Ok(hex::encode(alloc, bytes)?)
}

fn told_number(alloc: Global, read: Result<u32, LineFault>) -> Result<String, Fail> {
    match read {
        Ok(number) => Ok(format!(in alloc; "{number}")?),
        Err(fault) => refused(alloc, fault),
    }
}

fn told_party(alloc: Global, read: Result<PartyNumber, LineFault>) -> Result<String, Fail> {
    match read {
        Ok(PartyNumber::Member(number)) => Ok(format!(in alloc; "member {number}")?),
        Ok(PartyNumber::Client(number)) => Ok(format!(in alloc; "client {number}")?),
        Err(fault) => refused(alloc, fault),
    }
}

fn told_label(alloc: Global, read: Result<Label, LineFault>) -> Result<String, Fail> {
    match read {
        Ok(label) => digits(alloc, label.bytes()),
        Err(fault) => refused(alloc, fault),
    }
}

fn told_name(alloc: Global, read: Result<Name, LineFault>) -> Result<String, Fail> {
    match read {
        Ok(name) => digits(alloc, name.bytes().as_slice()),
        Err(fault) => refused(alloc, fault),
    }
}

fn told_content(alloc: Global, word: &str) -> Result<String, Fail> {
    match data(alloc, word.as_bytes()) {
        Ok(content) => digits(alloc, content.as_slice()),
        Err(fault) => refused(alloc, fault),
    }
}

// Words of bytes as text, each with a stroke behind it.
fn tell_words(words: &[&[u8]], out: &mut Vec<u8>) -> Result<(), Fail> {
    for word in words {
        out.extend_from_slice(word)?;
        out.push(b'|')?;
    }
    Ok(())
}

fn parts_of_line(alloc: Global, line: &[u8], after: &[u8]) -> Result<String, Fail> {
    let mut out = Vec::new(alloc);
    let words = words(alloc, line)?;
    tell_words(words.as_slice(), &mut out)?;
    out.extend_from_slice(after)?;
    Ok(String::from_utf8(out)?)
}

fn told_line(alloc: Global, text: &str) -> Result<String, Fail> {
    let (line, after) = split_line(text.as_bytes());
    let (plain, comment) = (is_plain_line(line), is_comment(line));
    let mut out = parts_of_line(alloc, line, after)?;
    let kinds = format!(in alloc; " plain {plain} comment {comment}")?;
    out.push_str(kinds.as_str())?;
    Ok(out)
}

fn update_of(alloc: Global, text: &str) -> Result<Items<LineClause>, LineFault> {
    let words = words(alloc, text.as_bytes())?;
    let groups = groups(alloc, &words)?;
    clauses(alloc, &groups)
}

fn told_update(alloc: Global, text: &str) -> Result<String, Fail> {
    match update_of(alloc, text) {
        Ok(clauses) => counts(alloc, clauses.as_slice()),
        Err(fault) => refused(alloc, fault),
    }
}

fn counts(alloc: Global, clauses: &[LineClause]) -> Result<String, Fail> {
    let (mut guards, mut actions, mut bytes) = (0usize, 0usize, 0usize);
    for clause in clauses {
        guards = guards.saturating_add(clause.guards.len());
        actions = actions.saturating_add(clause.actions.len());
        bytes = bytes.saturating_add(content(clause.actions.as_slice()));
    }
    Ok(format!(in alloc; "{} {guards} {actions} {bytes}", clauses.len())?)
}

// How many bytes of content actions have.
fn content(actions: &[Action]) -> usize {
    let mut bytes = 0usize;
    for action in actions {
        bytes = bytes.saturating_add(content_in(action));
    }
    bytes
}

fn content_in(action: &Action) -> usize {
    match action {
        Action::Replace { content, .. }
        | Action::Append { content }
        | Action::Splice { content, .. } => content.len(),
        Action::Truncate { .. } => 0,
    }
}

#[test]
fn cases(rt: HostRuntime) -> Result<(), Fail> {
    for (class, text, wanted) in CASES {
        assert_eq!(rt; told(rt.alloc(), *class, text)?.as_str(), *wanted, "{text}");
    }
    Ok(())
}
