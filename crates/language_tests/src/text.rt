use pipe_text::{Lexeme, LineFault, Symbol, first_line, read_line};
use std::alloc::Global;

// How many tokens a line has, or 1001 and more for its fault.
fn answer(alloc: Global, line: &[u8]) -> usize {
    match read_line(alloc, line) {
        Ok(tokens) => tokens.len(),
        Err(LineFault::Utf8) => 1001,
        Err(LineFault::Token) => 1002,
        Err(LineFault::Long) => 1003,
        Err(LineFault::Memory) => 1004,
    }
}

// Whether a line is one token, and this one.
fn is_one(alloc: Global, line: &[u8], kind: u8, inside: &[u8]) -> bool {
    match read_line(alloc, line) {
        Ok(tokens) => match tokens.as_slice() {
            [Lexeme::Word(bytes)] => kind == b'w' && *bytes == inside,
            [Lexeme::Quoted(bytes)] => kind == b'q' && *bytes == inside,
            [Lexeme::Digits(bytes)] => kind == b'd' && *bytes == inside,
            [Lexeme::Text(bytes)] => kind == b't' && *bytes == inside,
            [Lexeme::Sign(Symbol::Arrow)] => kind == b'>',
            _ => false,
        },
        Err(_) => false,
    }
}

#[test]
fn tokens_of_lines(rt: HostRuntime) {
    assert_eq!(rt; answer(rt.alloc(), b""), 0);
    assert_eq!(rt; answer(rt.alloc(), b" \t "), 0);
    assert_eq!(rt; answer(rt.alloc(), b"  # \" a comment ` \r"), 0);
    assert_eq!(rt; answer(rt.alloc(), b"# \xff"), 1001);
    assert_eq!(rt;
        answer(rt.alloc(), b"filter amount >= 500 and region != \"r 1\""),
        8
    );
    assert_eq!(rt; answer(rt.alloc(), b"a<=-1"), 4);
    assert_eq!(rt; answer(rt.alloc(), b"12ab"), 2);
    assert_eq!(rt; answer(rt.alloc(), b"a+++b"), 4);
    assert_eq!(rt; answer(rt.alloc(), b"take 3 # no comment"), 1002);
    assert_eq!(rt; answer(rt.alloc(), b"a ! b"), 1002);
    assert_eq!(rt; answer(rt.alloc(), b"``"), 1002);
    assert_eq!(rt; answer(rt.alloc(), b"`open"), 1002);
    assert_eq!(rt; answer(rt.alloc(), b"\"open"), 1002);
    assert_eq!(rt; answer(rt.alloc(), b"\"bad \\x\""), 1002);
    assert_eq!(rt; answer(rt.alloc(), b"\"end \\\""), 1002);
    assert_eq!(rt; answer(rt.alloc(), b"a\0b"), 1002);
    assert_eq!(rt; answer(rt.alloc(), b"print\r"), 1002);
    assert_eq!(rt; answer(rt.alloc(), &[b'('; 512]), 512);
    assert_eq!(rt; answer(rt.alloc(), &[b'('; 513]), 1003);
    assert_eq!(rt; answer(rt.alloc(), &[b'!'; 600]), 1002);
}

#[test]
fn forms_of_tokens(rt: HostRuntime) {
    assert!(rt; is_one(rt.alloc(), b" _a1 ", b'w', b"_a1"));
    assert!(rt; is_one(rt.alloc(), b"`a b`", b'q', b"a b"));
    assert!(rt; is_one(rt.alloc(), b"007", b'd', b"007"));
    assert!(rt; is_one(rt.alloc(), b"\"a\\\"b\"", b't', b"a\\\"b"));
    assert!(rt; is_one(rt.alloc(), b"\"\"", b't', b""));
    assert!(rt; is_one(rt.alloc(), b"->", b'>', b""));
}

// A text's number of lines, and the bytes of all.
fn sizes(text: &[u8]) -> (usize, usize) {
    let mut lines = 0usize;
    let mut bytes = 0usize;
    let mut rest = text;
    while let Some((line, after)) = first_line(rest) {
        lines = lines.saturating_add(1);
        bytes = bytes.saturating_add(line.len());
        rest = after;
    }
    (lines, bytes)
}

#[test]
fn lines_of_texts(rt: HostRuntime) {
    assert!(rt; sizes(b"") == (0, 0));
    assert!(rt; sizes(b"\n") == (1, 0));
    assert!(rt; sizes(b"a\r\nbc\n\nd\r") == (4, 5));
    assert!(rt; sizes(b"a\r\r\n") == (1, 2));
}
