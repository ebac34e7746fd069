//! Items, each written behind one space.

ghost use Rattle.std.specs.Prelude.{◌≡◌, ◌++◌, ◌∷◌, [], OnOk};
ghost use Rattle.pipe_expr.specs.Grammar.{view};
ghost use Rattle.pipe_print.specs.Items.{Fixed, Int, Mark, Name, Quote, escape, escaped, is_plain, operator, spaced, tree_items};
ghost use Rattle.pipe_text.specs.Token.{symbol_text};

use itoa::Buffer;
use par_laws::{Memory, Words};
use pipe_expr::{Expr, Op};
use pipe_text::{Symbol, is_word_text};
use pipe_tokens::reserved;

pub(crate) fn fixed(out: &mut Vec<u8>, version: u8, word: &str) -> Result<(), Memory>
    ensures { OnOk result (out.new.items ≡ out.old.items ++ spaced version (Fixed word.now ∷ [])) }
{
    out.push(b' ')?;
    out.extend_from_slice(word.as_bytes())?;
    Ok(())
}

fn symbol(symbol: Symbol) -> &'static [u8]
    ensures { result.now ≡ symbol_text symbol }
{
    match symbol {
        Symbol::Open => b"(",
        Symbol::Close => b")",
        Symbol::Comma => b",",
        Symbol::Colon => b":",
        Symbol::Equal => b"=",
        Symbol::Differ => b"!=",
        Symbol::Less => b"<",
        Symbol::AtMost => b"<=",
        Symbol::More => b">",
        Symbol::AtLeast => b">=",
        Symbol::Plus => b"+",
        Symbol::Join => b"++",
        Symbol::Minus => b"-",
        Symbol::Arrow => b"->",
        Symbol::Times => b"*",
        Symbol::Divide => b"/",
        Symbol::Remainder => b"%",
    }
}

pub(crate) fn mark(out: &mut Vec<u8>, version: u8, mark: Symbol) -> Result<(), Memory>
    ensures { OnOk result (out.new.items ≡ out.old.items ++ spaced version (Mark mark ∷ [])) }
{
    out.push(b' ')?;
    out.extend_from_slice(symbol(mark))?;
    Ok(())
}

// Whether a name may be written plain in a version.
fn is_plain(version: u8, name: &str) -> bool
    ensures { result ≡ is_plain version name.now }
{
    is_word_text(name.as_bytes()) && reserved(version, name).is_none()
}

pub(crate) fn name(out: &mut Vec<u8>, version: u8, name: &Words) -> Result<(), Memory>
    ensures { OnOk result (out.new.items ≡ out.old.items ++ spaced version (Name name.now ∷ [])) }
{
    let text = name.as_str();
    out.push(b' ')?;
    if is_plain(version, text) {
        out.extend_from_slice(text.as_bytes())?;
    } else {
        out.push(b'`')?;
        out.extend_from_slice(text.as_bytes())?;
        out.push(b'`')?;
    }
    Ok(())
}

pub(crate) fn int(out: &mut Vec<u8>, version: u8, n: i64) -> Result<(), Memory>
    ensures { OnOk result (out.new.items ≡ out.old.items ++ spaced version (Int n ∷ [])) }
{
    let mut digits = Buffer::new();
    out.push(b' ')?;
    out.extend_from_slice(digits.format(n).as_bytes())?;
    Ok(())
}

// A byte of a text, as an escape where it must be one.
fn escape(out: &mut Vec<u8>, c: u8) -> Result<(), Memory>
    ensures { OnOk result (out.new.items ≡ out.old.items ++ escape c) }
{
    match c {
        b'"' => out.extend_from_slice(b"\\\"")?,
        b'\\' => out.extend_from_slice(b"\\\\")?,
        b'\n' => out.extend_from_slice(b"\\n")?,
        b'\t' => out.extend_from_slice(b"\\t")?,
        other => out.push(other)?,
    }
    Ok(())
}

fn escapes(out: &mut Vec<u8>, text: &[u8]) -> Result<(), Memory>
    ensures { OnOk result (out.new.items ≡ out.old.items ++ escaped text.now) }
{
    for c in text {
        escape(out, *c)?;
    }
    Ok(())
}

pub(crate) fn quote(out: &mut Vec<u8>, version: u8, text: &Words) -> Result<(), Memory>
    ensures { OnOk result (out.new.items ≡ out.old.items ++ spaced version (Quote text.now ∷ [])) }
{
    out.extend_from_slice(b" \"")?;
    escapes(out, text.as_str().as_bytes())?;
    out.push(b'"')?;
    Ok(())
}

fn operator(out: &mut Vec<u8>, version: u8, op: Op) -> Result<(), Memory>
    ensures { OnOk result (out.new.items ≡ out.old.items ++ spaced version (operator op ∷ [])) }
{
    match op {
        Op::Or => fixed(out, version, "or"),
        Op::And => fixed(out, version, "and"),
        Op::Equal => mark(out, version, Symbol::Equal),
        Op::Differ => mark(out, version, Symbol::Differ),
        Op::Less => mark(out, version, Symbol::Less),
        Op::AtMost => mark(out, version, Symbol::AtMost),
        Op::More => mark(out, version, Symbol::More),
        Op::AtLeast => mark(out, version, Symbol::AtLeast),
        Op::Plus => mark(out, version, Symbol::Plus),
        Op::Minus => mark(out, version, Symbol::Minus),
        Op::Join => mark(out, version, Symbol::Join),
        Op::Times => mark(out, version, Symbol::Times),
        Op::Divide => mark(out, version, Symbol::Divide),
        Op::Remainder => mark(out, version, Symbol::Remainder),
    }
}

pub(crate) fn value(out: &mut Vec<u8>, version: u8, e: &Expr) -> Result<(), Memory>
    ensures { OnOk result (out.new.items ≡ out.old.items ++ spaced version (tree_items (view e.now))) }
{
    match e {
        Expr::Int(n) => int(out, version, *n),
        Expr::Text(text) => quote(out, version, text),
        Expr::Column(column) => name(out, version, column),
        Expr::Len(inner) => {
            fixed(out, version, "len")?;
            mark(out, version, Symbol::Open)?;
            value(out, version, inner)?;
            mark(out, version, Symbol::Close)
        }
        Expr::ToInt(inner) => {
            fixed(out, version, "toInt")?;
            mark(out, version, Symbol::Open)?;
            value(out, version, inner)?;
            mark(out, version, Symbol::Close)
        }
        Expr::Group(inner) => {
            mark(out, version, Symbol::Open)?;
            value(out, version, inner)?;
            mark(out, version, Symbol::Close)
        }
        Expr::Not(inner) => {
            fixed(out, version, "not")?;
            value(out, version, inner)
        }
        Expr::Pair(op, a, b) => {
            value(out, version, a)?;
            operator(out, version, *op)?;
            value(out, version, b)
        }
    }
}
