//! Texts to trees, or the first refusal.

ghost use Rattle.std.specs.Prelude.{◌≤◌, IfErr, IfOk, length};
ghost use Rattle.c_parse.specs.Ends.{HasTree as HasCTree};
ghost use Rattle.v_parse.specs.Ends.{HasTree as HasVTree};
ghost use Rattle.hwcbmc_core.specs.Trees.{EndsAt};

use c_parse::{ParseEnd as CEnd, parse_c};
use c_tree::CTree;
use src_text::Refusal;
use std::alloc::Global;
use v_parse::{ParseEnd as VEnd, parse_v};
use v_tree::VTree;

/// The trees of the two texts.
#[derive(Drop)]
pub struct Trees {
    pub c_tree: CTree,
    pub v_tree: VTree,
}

/// Why there are no trees.
#[derive(Debug, Drop)]
pub enum TreesEnd {
    /// The C text is refused.
    CRefused(Refusal),
    /// The Verilog text is refused, and the C text has a tree.
    VRefused(Refusal),
    /// Want of memory.
    Memory,
}

impl From<CEnd> for TreesEnd {
    ghost use Rattle.std.specs.Prelude.{◌≡◌};
    ghost use Rattle.hwcbmc_core.specs.Trees.{of_c};

    ghost from_gives = { λ end e. e ≡ of_c end };

    fn from(end: CEnd) -> TreesEnd {
        match end {
            CEnd::Refused(refusal) => TreesEnd::CRefused(refusal),
            CEnd::Memory => TreesEnd::Memory,
        }
    }
}

impl From<VEnd> for TreesEnd {
    ghost use Rattle.std.specs.Prelude.{◌≡◌};
    ghost use Rattle.hwcbmc_core.specs.Trees.{of_v};

    ghost from_gives = { λ end e. e ≡ of_v end };

    fn from(end: VEnd) -> TreesEnd {
        match end {
            VEnd::Refused(refusal) => TreesEnd::VRefused(refusal),
            VEnd::Memory => TreesEnd::Memory,
        }
    }
}

/// The trees of both texts. The C text is read first, and a text that has no tree ends the reading.
pub fn read_texts(alloc: Global, c_text: &[u8], v_text: &[u8]) -> Result<Trees, TreesEnd>
    requires c_fits { length c_text.now ≤ 1048576 }
    requires v_fits { length v_text.now ≤ 1048576 }
    ensures read { IfOk result (λ trees. HasCTree c_text.now trees.c_tree × HasVTree v_text.now trees.v_tree) }
    ensures refused { IfErr result (λ end. EndsAt c_text.now v_text.now end) }
{
    let c_tree = parse_c(alloc, c_text)?;
    let v_tree = parse_v(alloc, v_text)?;
    Ok(Trees { c_tree, v_tree })
}
