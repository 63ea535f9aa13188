// Scripts of the longest length, which are read within the time of a test.
use crate::reading::{LONGEST, Reading, is_read, read, repeated};
use ct_value::{Bytes, Memory, ScriptCode};
use std::alloc::Global;

// A text of the longest length: a front, one byte so often as fits, and a back.
fn filled(alloc: Global, front: &str, byte: u8, back: &str) -> Result<Bytes, Memory> {
    let mut bytes = front.as_bytes().to_vec(alloc)?;
    bytes.resize(LONGEST.saturating_sub(back.len()), byte)?;
    bytes.extend_from_slice(back.as_bytes())?;
    Ok(Bytes::from_vec(bytes))
}

fn is_filled(alloc: Global, front: &str, byte: u8, back: &str, wanted: Reading) -> bool {
    match filled(alloc, front, byte, back) {
        Ok(bytes) => read(alloc, &bytes) == wanted,
        Err(Memory) => false,
    }
}

// A front, the byte behind it, a back, and what the script is read as.
const FILLED: [(&str, u8, &str, Reading); 8] = [
    ("--", b'x', "", Reading::Statements(0)),
    ("/*", b'*', "x", Reading::Refused(ScriptCode::BadToken, 1)),
    ("", b'(', "", Reading::Refused(ScriptCode::TooDeep, 1)),
    ("", b'\'', "", Reading::Refused(ScriptCode::Syntax, 1)),
    (" ", b'`', "", Reading::Refused(ScriptCode::BadToken, 1)),
    ("", b'1', "x", Reading::Refused(ScriptCode::BadToken, 1)),
    ("", b';', "", Reading::Refused(ScriptCode::Syntax, 1)),
    ("SET 'a' = 'b';", b' ', "", Reading::Statements(1)),
];

#[test]
fn longest_scripts_are_read(rt: HostRuntime) {
    for (front, byte, back, wanted) in &FILLED {
        let is_read = is_filled(rt.alloc(), front, *byte, back, *wanted);
        assert!(rt; is_read, "{front}, the byte {byte}, and {back}");
    }
}

// What stands between two operands of a chain.
const CHAINS: [&str; 4] = ["+ a", "* a", "OR a", "AND a"];

// A select of 512 operands, with blanks before each and at the end.
fn is_chain(alloc: Global, operand: &str) -> bool {
    let Ok(next) = repeated(alloc, "", 500, " ", operand) else {
        return false;
    };
    let front = "INSERT INTO o SELECT a";
    match repeated(alloc, front, 511, next.as_str(), "") {
        Ok(text) => is_filled(
            alloc,
            text.as_str(),
            b' ',
            " FROM t;",
            Reading::Statements(1),
        ),
        Err(Memory) => false,
    }
}

#[test]
fn longest_chains_are_read(rt: HostRuntime) {
    for operand in &CHAINS {
        assert!(rt; is_chain(rt.alloc(), operand), "the chain of {operand}");
    }
}

// What stands behind the first select of a long query, again and again.
const SELECTS: [&str; 3] = [
    " UNION ALL SELECT a FROM t",
    " INTERSECT SELECT a FROM t",
    " EXCEPT ALL SELECT a FROM t",
];

fn is_long_query(alloc: Global, select: &str) -> bool {
    match repeated(alloc, "INSERT INTO o SELECT a FROM t", 9_500, select, ";") {
        Ok(text) => is_read(alloc, text.as_str(), Reading::Statements(1)),
        Err(Memory) => false,
    }
}

#[test]
fn longest_queries_are_read(rt: HostRuntime) {
    for select in &SELECTS {
        assert!(rt;
            is_long_query(rt.alloc(), select),
            "the selects of {select}"
        );
    }
}
