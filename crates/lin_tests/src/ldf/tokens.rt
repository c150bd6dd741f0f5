//! Tokens of whole texts, and each form at its edges.

use crate::samples::{
    BODY_CLUSTER, BYTE_ORDER_MARK, DOOR_CLUSTER, KEYS_CLUSTER, LIGHT_CLUSTER, add, add_number,
    add_place, expect_text, joined,
};
use lin_ldf::{Token, TokenKind, lex};
use std::alloc::Global;
use std::process::Abort;
use std::test::Fail;

/// A letter for each kind; a mark stands for its own.
fn letter(kind: TokenKind) -> u8 {
    match kind {
        TokenKind::Word => b'w',
        TokenKind::Number => b'n',
        TokenKind::Text => b't',
        TokenKind::OpenBrace => b'{',
        TokenKind::CloseBrace => b'}',
        TokenKind::Colon => b':',
        TokenKind::Semicolon => b';',
        TokenKind::Comma => b',',
        TokenKind::Equals => b'=',
        TokenKind::Other => b'o',
    }
}

/// Tokens, each as the letter of its kind and its bytes.
fn spelled_tokens(alloc: Global, source: &[u8], tokens: &[Token]) -> Result<Vec<u8>, Fail> {
    let mut out = Vec::new(alloc);
    for token in tokens {
        if !out.is_empty() {
            out.push(b' ')?;
        }
        out.push(letter(token.kind))?;
        out.extend_from_slice(source.get(token.start..token.end).unwrap_or(b""))?;
    }
    Ok(out)
}

/// The tokens of a text, or the fault.
fn spelled(alloc: Global, source: &[u8]) -> Result<Vec<u8>, Fail> {
    match lex(alloc, source) {
        Ok(tokens) => spelled_tokens(alloc, source, &tokens),
        Err(fault) => Ok(fault.to_string(alloc)?.into_bytes()),
    }
}

/// A case is a text and, after an arrow, its tokens or its fault.
fn expect_case(rt: &impl Abort, alloc: Global, case: &str) -> Result<(), Fail> {
    let (source, want) = case.split_once(" => ").ok_or("no arrow")?;
    let found = spelled(alloc, source.as_bytes())?;
    expect_text(rt, &found, want.as_bytes(), source);
    Ok(())
}

/// A case on each line.
fn expect_lines(rt: &impl Abort, alloc: Global, cases: &str) -> Result<(), Fail> {
    for case in cases.lines() {
        expect_case(rt, alloc, case)?;
    }
    Ok(())
}

/// Cases of several lines, with a line of hyphens between them.
fn expect_blocks(rt: &impl Abort, alloc: Global, cases: &str) -> Result<(), Fail> {
    for case in cases.split("\n---\n") {
        expect_case(rt, alloc, case)?;
    }
    Ok(())
}

/// The tokens of the built-in cluster: line and column, range, kind and text.
const BUILT_IN: &str = "1:1 0..20 wLIN_description_file
1:21 20..21 ;;
2:1 22..42 wLIN_protocol_version
2:22 43..44 ==
2:24 45..50 t\"2.2\"
2:29 50..51 ;;
3:1 52..72 wLIN_language_version
3:22 73..74 ==
3:24 75..80 t\"2.2\"
3:29 80..81 ;;
4:1 82..91 wLIN_speed
4:11 92..93 ==
4:13 94..98 n19.2
4:18 99..103 wkbps
4:22 103..104 ;;
5:1 105..110 wNodes
5:7 111..112 {{
5:9 113..119 wMaster
5:15 119..120 ::
5:17 121..124 wcem
5:20 124..125 ,,
5:22 126..127 n5
5:24 128..130 wms
5:26 130..131 ,,
5:28 132..135 n0.1
5:32 136..138 wms
5:34 138..139 ;;
5:36 140..146 wSlaves
5:42 146..147 ::
5:44 148..152 wdoor
5:48 152..153 ;;
5:50 154..155 }}
6:1 156..171 wNode_attributes
6:17 172..173 {{
6:19 174..178 wdoor
6:24 179..180 {{
6:26 181..193 wLIN_protocol
6:39 194..195 ==
6:41 196..201 t\"2.2\"
6:46 201..202 ;;
6:48 203..217 wconfigured_NAD
6:63 218..219 ==
6:65 220..224 n0x01
6:69 224..225 ;;
6:71 226..227 }}
6:73 228..229 }}
7:1 230..245 wSchedule_tables
7:17 246..247 {{
7:19 248..252 wdiag
7:24 253..254 {{
7:26 255..264 wMasterReq
7:36 265..270 wdelay
7:42 271..273 n10
7:45 274..276 wms
7:47 276..277 ;;
7:49 278..287 wSlaveResp
7:59 288..293 wdelay
7:65 294..296 n10
7:68 297..299 wms
7:70 299..300 ;;
7:72 301..302 }}
7:74 303..304 }}
";

/// A token as a line of the list above.
fn listed(alloc: Global, source: &[u8], token: &Token) -> Result<Vec<u8>, Fail> {
    let mut out = Vec::new(alloc);
    add_place(alloc, &mut out, token.line, token.column)?;
    out.push(b' ')?;
    add_number(alloc, &mut out, token.start as u64)?;
    out.extend_from_slice(b"..")?;
    add_number(alloc, &mut out, token.end as u64)?;
    let text = source.get(token.start..token.end).unwrap_or(b"");
    add(&mut out, &[b" ", &[letter(token.kind)], text])?;
    Ok(out)
}

fn expect_tokens(rt: &impl Abort, alloc: Global, source: &[u8], lines: &str) -> Result<(), Fail> {
    let tokens = lex(alloc, source)?;
    assert!(rt; tokens.len() == lines.lines().count());
    for (token, line) in tokens.iter().zip(lines.lines()) {
        expect_text(rt, &listed(alloc, source, token)?, line.as_bytes(), "token");
    }
    Ok(())
}

#[test]
fn sample_clusters(rt: HostRuntime) -> Result<(), Fail> {
    expect_tokens(&rt, rt.alloc(), DOOR_CLUSTER, BUILT_IN)?;
    for text in [KEYS_CLUSTER, LIGHT_CLUSTER, BODY_CLUSTER] {
        assert!(rt; !lex(rt.alloc(), text)?.is_empty());
    }
    Ok(())
}

fn is_moved(a: &Token, b: &Token) -> bool {
    a.kind == b.kind
        && a.line == b.line
        && a.column == b.column
        && b.start.checked_sub(3) == Some(a.start)
        && b.end.checked_sub(3) == Some(a.end)
}

/// The same tokens, three bytes further on.
fn expect_moved(rt: &impl Abort, alloc: Global, source: &[u8], marked: &[u8]) -> Result<(), Fail> {
    let tokens = lex(alloc, source)?;
    let moved = lex(alloc, marked)?;
    assert!(rt; moved.len() == tokens.len());
    for (a, b) in tokens.iter().zip(moved.iter()) {
        assert!(rt; is_moved(a, b), "token at {}:{}", a.line, a.column);
    }
    Ok(())
}

/// A mark at the beginning, and marks where they are none.
const MARKS: &str = "\u{FEFF} => 
\u{FEFF}\0 => 1:1 fault 1 BadByte
\u{FEFF}\u{FEFF} => 1:1 fault 1 BadByte
a \u{FEFF} => 1:3 fault 1 BadByte
";

fn expect_bad_byte(rt: &impl Abort, alloc: Global, source: &[u8]) -> Result<(), Fail> {
    let found = spelled(alloc, source)?;
    expect_text(rt, &found, b"1:1 fault 1 BadByte", "bad byte");
    Ok(())
}

#[test]
fn byte_order_mark(rt: HostRuntime) -> Result<(), Fail> {
    let marked = joined(rt.alloc(), &[BYTE_ORDER_MARK, DOOR_CLUSTER])?;
    expect_moved(&rt, rt.alloc(), DOOR_CLUSTER, &marked)?;
    expect_lines(&rt, rt.alloc(), MARKS)?;
    for part in [b"\xEF\xBB".as_slice(), b"\xBF"] {
        expect_bad_byte(&rt, rt.alloc(), part)?;
    }
    Ok(())
}

/// Texts and their tokens.
const FORMS: &str = "10ms => n10 wms
_a1 Z9_ => w_a1 wZ9_
1. => n1 o.
.5 => o. n5
1.5.2 => n1.5 o. n2
1..5 => n1 o. o. n5
19.2 => n19.2
0x => n0 wx
0xg => n0 wxg
0X1f => n0X1f
0xAFaf09g => n0xAFaf09 wg
00x1 => n00 wx1
1x1 => n1 wx1
0x1.5 => n0x1 o. n5
0.x1 => n0 o. wx1
1e3 => n1 we3
-1 => o- n1
1_0 => n1 w_0
000000000000000000000000000007 => n000000000000000000000000000007
{}:;,= => {{ }} :: ;; ,, ==
+-*()[] => o+ o- o* o( o) o[ o]
/ => o/
a/b => wa o/ wb
*/ => o* o/
\\ => o\\
a//b => wa
/**/a => wa
/***/a => wa
/*/ a */b => wb
/* /* */ */ => o* o/
a/**/b => wa wb
\"\" => t\"\"
\"/* // */\"a => t\"/* // */\" wa
a\"b\"c => wa t\"b\" wc
\"a\"\"b\" => t\"a\" t\"b\"
\"a\\\"b => t\"a\\\" wb
";

/// Texts of several lines, and texts with bytes that stand in comments and texts alone.
const FORMS_OF_LINES: &str = " => 
---
 \t\r\n => 
---
a\rb\tc
d e => wa wb wc wd we
---
// => 
---
// a /* b
c => wc
---
//\\
a => wa
---
// a\rb
c => wc
---
///*
a => wa
---
// \0\u{80}\u{FF} \"
a => wa
---
/* \0\u{80}\u{FF} \" // 
 */a => wa
---
\"\0\u{80}\u{FF}
\"a => t\"\0\u{80}\u{FF}
\" wa";

/// Texts and their faults.
const FAULTS: &str = "LIN_description_file; \"x => 1:23 fault 3 OpenText
LIN_description_file; /* x => 1:23 fault 2 OpenComment
/*/ => 1:1 fault 2 OpenComment
/* => 1:1 fault 2 OpenComment
/* * => 1:1 fault 2 OpenComment
*/* => 1:2 fault 2 OpenComment
\" => 1:1 fault 3 OpenText
\"a\" \" => 1:5 fault 3 OpenText
/*\" => 1:1 fault 2 OpenComment
\"/* => 1:1 fault 3 OpenText
";

/// Texts of several lines: CR takes a column, LF alone ends a line, also in texts and comments. The
/// first fault from the left.
const FAULTS_OF_LINES: &str = "LIN_description_file\u{80} => 1:21 fault 1 BadByte
---
a\r\x0B => 1:3 fault 1 BadByte
---
\r
 \x0C => 2:2 fault 1 BadByte
---
\t\x1A => 1:2 fault 1 BadByte
---
\"

 x\" \u{80} => 3:5 fault 1 BadByte
---
/*
*/\u{80} => 2:3 fault 1 BadByte
---
\"\u{80}\"\u{80} => 1:5 fault 1 BadByte
---
//\u{80}

\x7F => 3:1 fault 1 BadByte
---
\"/*\u{80} => 1:1 fault 3 OpenText
---
\u{80}\" => 1:1 fault 1 BadByte
---
} ; 1
 0x\u{80} /* \" => 2:4 fault 1 BadByte";

#[test]
fn forms_and_faults(rt: HostRuntime) -> Result<(), Fail> {
    for cases in [FORMS, FAULTS] {
        expect_lines(&rt, rt.alloc(), cases)?;
    }
    for cases in [FORMS_OF_LINES, FAULTS_OF_LINES] {
        expect_blocks(&rt, rt.alloc(), cases)?;
    }
    Ok(())
}

/// The kind of a byte that is a token alone; `?` is for a bad byte.
fn kind_alone(c: u8) -> u8 {
    match c {
        0..=31 | 127..=255 => b'?',
        b'a'..=b'z' | b'A'..=b'Z' | b'_' => b'w',
        b'0'..=b'9' => b'n',
        b'{' | b'}' | b':' | b';' | b',' | b'=' => c,
        _ => b'o',
    }
}

fn expect_alone(rt: &impl Abort, alloc: Global, c: u8) -> Result<(), Fail> {
    let found = spelled(alloc, &[c])?;
    let token = [kind_alone(c), c];
    let want: &[u8] = match c {
        b' ' | b'\t' | b'\r' | b'\n' => b"",
        b'"' => b"1:1 fault 3 OpenText",
        _ if kind_alone(c) == b'?' => b"1:1 fault 1 BadByte",
        _ => &token,
    };
    assert!(rt; found.as_slice() == want, "tokens of byte {c}");
    Ok(())
}

#[test]
fn every_byte_alone(rt: HostRuntime) -> Result<(), Fail> {
    for c in 0..=255u8 {
        expect_alone(&rt, rt.alloc(), c)?;
    }
    Ok(())
}

fn expect_last(rt: &impl Abort, alloc: Global, source: &[u8], column: u64) -> Result<(), Fail> {
    let tokens = lex(alloc, source)?;
    let last = tokens.last().ok_or("no token")?;
    assert!(rt; tokens.len() == source.len());
    assert!(rt; last.end == source.len());
    assert!(rt; last.line == 1);
    assert!(rt; last.column == column);
    Ok(())
}

#[test]
fn long_texts(rt: HostRuntime) -> Result<(), Fail> {
    let braces = vec![in rt.alloc(); b'{'; 4_194_304]?;
    expect_last(&rt, rt.alloc(), &braces, 4_194_304)?;
    let nul = vec![in rt.alloc(); 0u8; 1_000_000]?;
    expect_bad_byte(&rt, rt.alloc(), &nul)
}
