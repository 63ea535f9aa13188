// What scripts are read as: how many statements there are, or the first refusal.
use ct_value::{Bytes, Memory, ScriptCode};
use sql_parse::{ParseFault, parse_script};
use std::alloc::Global;

/// The length of the longest script.
pub const LONGEST: usize = 262_144;

/// What a script is read as.
#[derive(Clone, Copy, Debug, PartialEq, Eq)]
pub enum Reading {
    Statements(usize),
    Refused(ScriptCode, u32),
    OutOfMemory,
    TooLong,
}

/// What bytes are read as.
pub fn read(alloc: Global, bytes: &Bytes) -> Reading {
    if bytes.len() > LONGEST {
        return Reading::TooLong;
    }
    match parse_script(alloc, bytes) {
        Ok(script) => Reading::Statements(script.statements.len()),
        Err(ParseFault::Refused { code, statement }) => Reading::Refused(code, statement),
        Err(ParseFault::Memory) => Reading::OutOfMemory,
    }
}

/// A text of a front, a piece so many times, and a back.
pub fn repeated(
    alloc: Global,
    front: &str,
    count: usize,
    piece: &str,
    back: &str,
) -> Result<String, Memory> {
    let mut text = String::from_str(alloc, front)?;
    for _ in 0..count {
        text.push_str(piece)?;
    }
    text.push_str(back)?;
    Ok(text)
}

// Scripts of which each statement and each form of an expression, a query and a table stands in one, and refusals.
const SCRIPTS: [(&str, Reading); 5] = [
    (
        "CREATE TABLE t (a INT PRIMARY KEY NOT ENFORCED, b DECIMAL(10, 2) NOT NULL) WITH ('changelog' = 'upsert');\
        CREATE TABLE u (k INT, PRIMARY KEY (k) NOT ENFORCED);\
        SET 'pipeline.name' = 'it''s'; -- a comment\n\
        INSERT INTO o SELECT DISTINCT x.*, -a + b * 2 - 1.5 || 'c' AS d, CAST(a AS INT), CASE WHEN a THEN b ELSE NULL END, (a) \
        FROM t AS x LEFT JOIN (SELECT k FROM u LIMIT 1) y ON x.a = y.k FULL OUTER JOIN v ON TRUE \
        WHERE a IN (1, 2) AND b NOT LIKE 'x%' OR NOT a IS NULL AND EXISTS (SELECT * FROM u WHERE k BETWEEN 1 AND 2) \
        GROUP BY a, b HAVING COUNT(DISTINCT a) FILTER (WHERE b <> 1) > 0 AND a IN (SELECT k FROM u) \
        UNION ALL SELECT ROW_NUMBER() OVER (PARTITION BY a ORDER BY b DESC, a), `q q` FROM t INTERSECT SELECT a, b FROM u \
        INTERSECT ALL SELECT a, b FROM t EXCEPT SELECT a, b FROM t EXCEPT ALL SELECT a, b FROM u ORDER BY a ASC, b;",
        Reading::Statements(4),
    ),
    ("", Reading::Statements(0)),
    (
        "SET 'a' = 'b'; SET #;",
        Reading::Refused(ScriptCode::BadToken, 2),
    ),
    ("SET 'a' = 'b'", Reading::Refused(ScriptCode::Syntax, 1)),
    (
        "SELECT ((((((((((((((((((((((((((((((((( ",
        Reading::Refused(ScriptCode::TooDeep, 1),
    ),
];

/// Whether a text is read as that.
pub fn is_read(alloc: Global, text: &str, wanted: Reading) -> bool {
    match Bytes::from_slice(alloc, text.as_bytes()) {
        Ok(bytes) => read(alloc, &bytes) == wanted,
        Err(Memory) => false,
    }
}

#[test]
fn scripts_are_read(rt: HostRuntime) {
    for (text, wanted) in &SCRIPTS {
        assert!(rt; is_read(rt.alloc(), text, *wanted), "{text}");
    }
}
