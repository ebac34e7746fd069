use par_laws::{Memory, Words};
use pipe_expr::{
    Expr, Op, ParseError, Reserved, Token, Verb, divides_by_ints, is_deeper, whole_expression,
};
use pipe_text::Symbol;
use std::alloc::Global;

// The token of one character: a digit, a symbol, a letter for a column, or a capital for a word.
fn token(alloc: Global, c: u8) -> Result<Token, Memory> {
    match c {
        b'0'..=b'9' => Ok(Token::Digits(u64::from(c - b'0'))),
        b'^' => Ok(Token::Digits(9_223_372_036_854_775_808)),
        b'(' => Ok(Token::Sign(Symbol::Open)),
        b')' => Ok(Token::Sign(Symbol::Close)),
        b'<' => Ok(Token::Sign(Symbol::Less)),
        b'=' => Ok(Token::Sign(Symbol::Equal)),
        b'+' => Ok(Token::Sign(Symbol::Plus)),
        b'-' => Ok(Token::Sign(Symbol::Minus)),
        b'&' => Ok(Token::Sign(Symbol::Join)),
        b'*' => Ok(Token::Sign(Symbol::Times)),
        b'/' => Ok(Token::Sign(Symbol::Divide)),
        b'%' => Ok(Token::Sign(Symbol::Remainder)),
        b'A' => Ok(Token::Kept(Reserved::And)),
        b'O' => Ok(Token::Kept(Reserved::Or)),
        b'N' => Ok(Token::Kept(Reserved::Not)),
        b'L' => Ok(Token::Kept(Reserved::Len)),
        b'I' => Ok(Token::Kept(Reserved::ToInt)),
        b'"' => Ok(Token::Quote(Words::from_text(alloc, "text")?)),
        _ => Ok(Token::Word(Verb::Plain, Words::from_text(alloc, "x")?)),
    }
}

fn read(alloc: Global, text: &[u8]) -> Result<Expr, ParseError> {
    let mut tokens = Vec::new(alloc);
    for c in text {
        match token(alloc, *c) {
            Ok(one) => tokens.push(one)?,
            Err(_) => return Err(ParseError::Memory),
        }
    }
    whole_expression(alloc, &tokens)
}

// The outermost form: an operator's number, or 20 and more for the others; 30 where nothing is read.
fn form(alloc: Global, text: &[u8]) -> u8 {
    match read(alloc, text) {
        Ok(Expr::Pair(Op::Or, _, _)) => 1,
        Ok(Expr::Pair(Op::And, _, _)) => 2,
        Ok(Expr::Pair(Op::Less, _, _)) => 3,
        Ok(Expr::Pair(Op::Minus, _, _)) => 4,
        Ok(Expr::Pair(Op::Times, _, _)) => 5,
        Ok(Expr::Pair(_, _, _)) => 6,
        Ok(Expr::Int(_)) => 20,
        Ok(Expr::Text(_)) => 21,
        Ok(Expr::Column(_)) => 22,
        Ok(Expr::Len(_)) => 23,
        Ok(Expr::ToInt(_)) => 24,
        Ok(Expr::Group(_)) => 25,
        Ok(Expr::Not(_)) => 26,
        Err(_) => 30,
    }
}

#[test]
fn forms(rt: HostRuntime) {
    let rows: [(&[u8], u8); 22] = [
        (b"7", 20),
        (b"-7", 20),
        (b"-^", 20),
        (b"^", 30),
        (b"\"", 21),
        (b"x", 22),
        (b"L(\")", 23),
        (b"I(x&x)", 24),
        (b"(x)", 25),
        (b"Nx<1", 26),
        (b"N(x)Ax", 2),
        (b"xAxOxAx", 1),
        (b"x+1<x*2", 3),
        (b"1<2<3", 30),
        (b"x*x-x*x", 4),
        (b"x-(x-x)", 4),
        (b"x/x", 6),
        (b"x-", 30),
        (b"(x", 30),
        (b"x x", 30),
        (b"Lx", 30),
        (b"", 30),
    ];
    for (text, wanted) in rows {
        assert_eq!(rt; form(rt.alloc(), text), wanted);
    }
}

#[test]
fn groups_to_the_left(rt: HostRuntime) {
    if let Ok(Expr::Pair(Op::Minus, left, right)) = read(rt.alloc(), b"5-2-1") {
        assert!(rt; matches!(&*right, Expr::Int(1)));
        assert!(rt; matches!(&*left, Expr::Pair(Op::Minus, _, _)));
    } else {
        assert!(rt; false);
    }
}

#[test]
fn deep_nests(rt: HostRuntime) -> Result<(), ParseError> {
    assert_eq!(rt; form(rt.alloc(), &[b'('; 512]), 30);
    assert_eq!(rt; form(rt.alloc(), &[b'N'; 512]), 30);
    let mut text = Vec::new(rt.alloc());
    for _ in 0..63 {
        text.push(b'N')?;
    }
    text.push(b'x')?;
    assert!(rt; !is_deeper(64, &read(rt.alloc(), &text)?));
    text.insert(0, b'N')?;
    assert!(rt; is_deeper(64, &read(rt.alloc(), &text)?));
    Ok(())
}

#[test]
fn divisors(rt: HostRuntime) -> Result<(), ParseError> {
    assert!(rt; divides_by_ints(&read(rt.alloc(), b"x/7%2")?));
    assert!(rt; !divides_by_ints(&read(rt.alloc(), b"1+(x/x)")?));
    Ok(())
}
