//! From a text to its tokens, with its directives carried out.

ghost use Rattle.std.specs.Prelude.{◌≡◌, ◌^◌, ◌<◌, ◌≤◌, ◌+◌, ◌*◌, ◌++◌, if◌then◌else◌, Some, None, is_none, IfOk, OnOk, All, List, length, map, position, take_while, nat_lt, false};
ghost use Rattle.std.specs.Map.{update};
ghost use Rattle.std.specs.Option.{option_copied};
ghost use Rattle.std.specs.List.{flat_map};
ghost use Rattle.std.specs.Str.{bytes_eq};
ghost use Rattle.text_scan.specs.Pieces.{is_line_end, line_len};
ghost use Rattle.text_scan.specs.declared.scanner.Token.{Token};
ghost use Rattle.c_tokens.specs.declared.kinds.TokenKind.TheVariants.{Identifier};
ghost use Rattle.c_tokens.specs.Directives.{spelling, first_line, is_kind, is_header, is_signed, is_constant, is_file, is_include, after_directive, token_at, expansion, refused, line_gives, lines_give, lines_of, c_tokens};
ghost use Rattle.c_tokens.specs.Reading.{IsTokenOf, IsWithin, names_of};

use crate::kinds::TokenKind;
use crate::rules::C;
use std::alloc::{AllocError, Global};
use std::collections::BTreeMap;
use text_scan::{STRAY, Token, tokens_of};

/// A token of a C text whose directives are carried out.
#[derive(Clone, Copy, Debug, PartialEq, Eq)]
pub struct CToken {
    /// The number of a [`TokenKind`](crate::TokenKind), or [`STRAY`].
    pub kind: u8,
    /// The byte where it is reported: its own first, or the first of the name that stands for it.
    pub at: u32,
    /// The first of the bytes that spell it.
    pub start: u32,
    /// How many bytes spell it.
    pub len: u32,
}

/// The constants that names stand for.
type Names<'t> = BTreeMap<&'t [u8], &'t [Token]>;

fn spelling<'t>(text: &'t [u8], token: &Token) -> &'t [u8]
    requires { IsWithin text.now token.now }
    ensures { result.now ≡ spelling text.now token.now }
{
    let start = token.start as usize;
    &text[start..start + token.len as usize]
}

fn line_end(bytes: &[u8]) -> Option<usize>
    ensures { result ≡ position is_line_end bytes.now }
{
    bytes.iter().position(|byte| *byte == b'\n')
}

/// How many bytes come before the end of the line.
fn line_len(bytes: &[u8]) -> usize
    ensures exact { result ≡ line_len bytes.now }
    ensures within { result ≤ length bytes.now }
{
    line_end(bytes).unwrap_or(bytes.len())
}

/// How many tokens come before the first that begins at this byte or later.
fn count_before(end: usize, tokens: &[Token]) -> usize
    ensures { result ≡ length (take_while (λ t. nat_lt t.start end) tokens.now) }
{
    tokens
        .iter()
        .take_while(|token| (token.start as usize) < end)
        .count()
}

/// How many of the tokens stand on the line of the first.
fn first_line_len(text: &[u8], tokens: &[Token]) -> usize
    requires { All (IsWithin text.now) tokens.now }
    ensures { result ≡ length (first_line text.now tokens.now) }
{
    let Some((first, rest)) = tokens.split_first() else {
        return 0;
    };
    let start = first.start as usize;
    let end = start + line_len(&text[start..]);
    1 + count_before(end, rest)
}

/// Whether these are an integer, or `-` and an integer.
fn is_signed(tokens: &[Token]) -> bool
    ensures { result ≡ is_signed tokens.now }
{
    match tokens {
        [a] => a.kind == TokenKind::Integer as u8,
        [a, b] => a.kind == TokenKind::Minus as u8 && b.kind == TokenKind::Integer as u8,
        _ => false,
    }
}

/// Whether these are a constant that a name may stand for, perhaps in parentheses.
fn is_constant(tokens: &[Token]) -> bool
    ensures { result ≡ is_constant tokens.now }
{
    match tokens {
        [open, .., close] if tokens.len() > 2 => {
            open.kind == TokenKind::OpenParenthesis as u8
                && is_signed(&tokens[1..tokens.len() - 1])
                && close.kind == TokenKind::CloseParenthesis as u8
        }
        _ => is_signed(tokens),
    }
}

fn is_spelled(text: &[u8], token: &Token, word: &str) -> bool
    requires { IsWithin text.now token.now }
    ensures { result ≡ bytes_eq (spelling text.now token.now) word.now }
{
    spelling(text, token) == word.as_bytes()
}

fn is_header(name: &[u8]) -> bool
    ensures { result ≡ is_header name.now }
{
    name == "assert".as_bytes() || name == "stdbool".as_bytes() || name == "stdint".as_bytes()
}

/// Whether these are `<`, the name of a header, and `.h>`.
fn is_file(text: &[u8], tokens: &[Token]) -> bool
    requires { All (IsWithin text.now) tokens.now }
    ensures { result ≡ is_file text.now tokens.now }
{
    let [less, header, dot, h, greater] = tokens else {
        return false;
    };
    less.kind == TokenKind::Less as u8
        && is_header(spelling(text, header))
        && dot.kind == TokenKind::Dot as u8
        && is_spelled(text, h, "h")
        && greater.kind == TokenKind::Greater as u8
}

/// Whether a directive includes one of the headers.
fn is_include(text: &[u8], line: &[Token]) -> bool
    requires { All (IsWithin text.now) line.now }
    ensures { result ≡ is_include text.now line.now }
{
    let [_, include, file @ ..] = line else {
        return false;
    };
    is_spelled(text, include, "include") && is_file(text, file)
}

/// Lets a name stand for a constant, if it stands for none.
fn define<'t>(
    names: &mut Names<'t>,
    name: &'t [u8],
    constant: &'t [Token],
) -> Result<bool, AllocError>
    ensures fresh { IfOk result (λ fresh. fresh ≡ is_none (names_of names.old name.now)) }
    ensures defined { IfOk result (λ fresh. names_of names.new ≡ (if fresh then update bytes_eq (names_of names.old) name.now (Some constant.now) else names_of names.old)) }
{
    if names.contains_key(name) {
        return Ok(false);
    }
    names.insert(name, constant)?;
    Ok(true)
}

/// Carries a directive out, if it is accepted.
fn carry_out<'t>(
    names: &mut Names<'t>,
    text: &'t [u8],
    line: &'t [Token],
) -> Result<bool, AllocError>
    requires { All (IsWithin text.now) line.now }
    ensures accepted { IfOk result (λ accepted. after_directive text.now (names_of names.old) line.now ≡ (if accepted then Some (names_of names.new) else None)) }
    ensures refused { IfOk result (λ accepted. accepted ≡ false → names_of names.new ≡ names_of names.old) }
{
    if is_include(text, line) {
        return Ok(true);
    }
    let [_, define_word, name, constant @ ..] = line else {
        return Ok(false);
    };
    if is_spelled(text, define_word, "define")
        && name.kind == TokenKind::Identifier as u8
        && is_constant(constant)
    {
        return define(names, spelling(text, name), constant);
    }
    Ok(false)
}

fn token_at(at: u32, token: &Token) -> CToken
    ensures { result ≡ token_at at token.now }
{
    CToken {
        kind: token.kind,
        at,
        start: token.start,
        len: token.len,
    }
}

/// The constant that a token stands for, if it is a name that is defined.
fn constant_of<'t>(names: &Names<'t>, text: &[u8], token: &Token) -> Option<&'t [Token]>
    requires { IsWithin text.now token.now }
    ensures { option_copied result ≡ (if is_kind Identifier token.now then names_of names.now (spelling text.now token.now) else None) }
{
    if token.kind == TokenKind::Identifier as u8 {
        return names.get(spelling(text, token)).copied();
    }
    None
}

/// Puts the tokens of a constant behind the others, at this place.
fn push_constant(read: &mut Vec<CToken>, at: u32, constant: &[Token]) -> Result<(), AllocError>
    ensures { OnOk result (read.new.items ≡ read.old.items ++ map (token_at at) constant.now) }
{
    for token in constant {
        read.push(token_at(at, token))?;
    }
    Ok(())
}

/// Puts a token behind the others, or the constant that it stands for.
fn push_expansion(
    read: &mut Vec<CToken>,
    names: &Names<'_>,
    text: &[u8],
    token: &Token,
) -> Result<(), AllocError>
    requires { IsWithin text.now token.now }
    ensures { OnOk result (read.new.items ≡ read.old.items ++ expansion text.now (names_of names.now) token.now) }
{
    match constant_of(names, text, token) {
        Some(constant) => push_constant(read, token.start, constant),
        None => {
            read.push(token_at(token.start, token))?;
            Ok(())
        }
    }
}

/// Puts the tokens of a line that is no directive behind the others.
fn push_line(
    read: &mut Vec<CToken>,
    names: &Names<'_>,
    text: &[u8],
    line: &[Token],
) -> Result<(), AllocError>
    requires { All (IsWithin text.now) line.now }
    ensures { OnOk result (read.new.items ≡ read.old.items ++ flat_map (expansion text.now (names_of names.now)) line.now) }
{
    for token in line {
        push_expansion(read, names, text, token)?;
    }
    Ok(())
}

/// Reads one line: a directive is carried out, the tokens of another line are put behind the others.
fn read_line<'t>(
    read: &mut Vec<CToken>,
    names: &mut Names<'t>,
    text: &'t [u8],
    line: &'t [Token],
) -> Result<(), AllocError>
    requires { All (IsWithin text.now) line.now }
    ensures gained { OnOk result (read.new.items ≡ read.old.items ++ (line_gives text.now (names_of names.old) line.now).0) }
    ensures names { OnOk result (names_of names.new ≡ (line_gives text.now (names_of names.old) line.now).1) }
{
    let Some(first) = line.first() else {
        return Ok(());
    };
    if first.kind != TokenKind::Hash as u8 {
        return push_line(read, names, text, line);
    }
    if !carry_out(names, text, line)? {
        read.push(refused(first))?;
    }
    Ok(())
}

/// The token of a directive that isn't accepted.
fn refused(hash: &Token) -> CToken
    ensures { result ≡ refused hash.now }
{
    CToken {
        kind: STRAY,
        at: hash.start,
        start: hash.start,
        len: hash.len,
    }
}

/// Carries out the directives among the tokens of a text.
fn read_lines(alloc: Global, text: &[u8], tokens: &[Token]) -> Result<Vec<CToken>, AllocError>
    requires { All (IsWithin text.now) tokens.now }
    ensures { IfOk result (λ v. v.items ≡ lines_give text.now (λ _. None) (lines_of text.now tokens.now)) }
{
    let mut names = BTreeMap::new(alloc);
    let mut read = Vec::new(alloc);
    let mut at = 0;
    while at < tokens.len() {
        let len = first_line_len(text, &tokens[at..]);
        read_line(&mut read, &mut names, text, &tokens[at..at + len])?;
        at += len;
    }
    Ok(read)
}

/// The tokens of a C text of fewer than 2^32 - 1 bytes, with its directives carried out (6.10).
pub fn c_tokens(alloc: Global, text: &[u8]) -> Result<Vec<CToken>, AllocError>
    requires { length text.now + 1 < 2 ^ 32 }
    ensures exact { IfOk result (λ v. v.items ≡ c_tokens text.now) }
    ensures tokens { IfOk result (λ v. All (IsTokenOf text.now) v.items) }
    // A name stands for at most four tokens.
    ensures few { IfOk result (λ v. length v.items ≤ 4 * length text.now) }
{
    let tokens = tokens_of(alloc, &C, text)?;
    read_lines(alloc, text, &tokens)
}

#[cfg(test)]
mod tests;
