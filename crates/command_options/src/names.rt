//! Names in words.

ghost use Rattle.std.specs.Prelude.{◌≡◌, length};
ghost use Rattle.text_scan.specs.Pieces.{longest_of};
ghost use Rattle.command_options.specs.Names.{is_kind, is_verilog_name as is_verilog, is_c_name as is_c};
ghost use Rattle.command_options.specs.Whole.{is_whole as is_whole_token};

use c_tokens::C;
use text_scan::TokenRules;
use v_tokens::Verilog;

/// The number of an identifier's kind, in both languages.
const IDENTIFIER: u8 = 1;

/// The longest token is one of this kind, and is the whole text.
fn is_whole(token: Option<(u8, usize)>, len: usize) -> bool
    ensures { result ≡ is_whole_token 1 len token }
{
    match token {
        Some((kind, end)) => kind == IDENTIFIER && end == len,
        None => false,
    }
}

/// An identifier of Verilog, and no keyword.
pub fn is_verilog_name(text: &str) -> bool
    ensures { result ≡ is_verilog text.now }
{
    is_whole(Verilog.longest(text.as_bytes()), text.len())
}

/// An identifier of C, and no reserved word.
pub fn is_c_name(text: &str) -> bool
    ensures { result ≡ is_c text.now }
{
    is_whole(C.longest(text.as_bytes()), text.len())
}
