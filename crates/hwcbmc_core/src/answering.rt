//! The answer of the command, from its words and its files.

ghost use Rattle.std.specs.Prelude.{◌≡◌, ◌<◌, ◌≤◌, IfOk, [], length, map, string_bytes};
ghost use Rattle.hwcbmc_core.specs.Answers.{IsRight, IsRightFor, IsJudged};
ghost use Rattle.c_parse.specs.Ends.{HasTree as HasCTree};
ghost use Rattle.v_parse.specs.Ends.{HasTree as HasVTree};
ghost use Rattle.c_types.specs.Ends.{IsShort};
ghost use Rattle.c_types.specs.Files.{c_offences, program_of};
ghost use Rattle.hwcbmc_core.specs.Pairs.{IsOtherModule};
ghost use Rattle.hwcbmc_core.specs.Typing.{IsClean};

use crate::answer::Answer;
use crate::forms::fit_forms;
use crate::judging::breaks;
use crate::kept::Kept;
use crate::reading::{Trees, TreesEnd, read_texts};
use crate::sources::{read_c, read_v};
use crate::tracing::trace;
use bare_sources::{Joined, told_beside};
use c_text_programs::programs_of_texts_fit;
use c_types::{TypeEnd, typed};
use cdcl::Choosers;
use command_options::{Options, UsageEnd, options};
use io_edge::{Files, read_all};
use joint_ir::CProgram;
use src_text::{Kind, Lang};
use std::alloc::{AllocError, Global};

/// The words, then the files, then the verdict: the first that stands in the way is the answer.
pub fn answer_for<F: Files>(
    alloc: Global,
    words: &[String],
    files: &mut F,
    choosers: &mut Choosers,
) -> Answer
    ensures told { F.told files.new ≡ F.told files.old }
    ensures right { IsRight (map string_bytes words.now) (F.told files.old) (F.reading files.old) (F.reading files.new) result }
{
    match options(alloc, words) {
        Ok(options) => read_files(alloc, options, files, choosers),
        Err(UsageEnd::Usage) => Answer::Usage,
        Err(UsageEnd::Memory) => Answer::Memory,
    }
}

/// Reads the C file to its end, and then the Verilog file.
fn read_files<F: Files>(
    alloc: Global,
    options: Options,
    files: &mut F,
    choosers: &mut Choosers,
) -> Answer
    requires some { 0 < options.budget }
    requires few { options.budget ≤ 2000000000 }
    ensures told { F.told files.new ≡ F.told files.old }
    ensures right { IsRightFor options (F.told files.old) (F.reading files.old) (F.reading files.new) result }
{
    let c_text = match read_all(alloc, files, options.c_file.text()) {
        Ok(text) => text,
        Err(end) => return Answer::unread(options.c_file, Lang::C, end),
    };
    let v_text = match read_all(alloc, files, options.v_file.text()) {
        Ok(text) => text,
        Err(end) => return Answer::unread(options.v_file, Lang::V, end),
    };
    judge(alloc, options, &c_text, &v_text, choosers)
}

/// The trees of the texts, and then the verdict on the pair.
fn judge(
    alloc: Global,
    options: Options,
    c_text: &[u8],
    v_text: &[u8],
    choosers: &mut Choosers,
) -> Answer
    requires c_fits { length c_text.now ≤ 1048576 }
    requires v_fits { length v_text.now ≤ 1048576 }
    requires some { 0 < options.budget }
    requires few { options.budget ≤ 2000000000 }
    ensures { IsJudged options c_text.now v_text.now result }
{
    match read_texts(alloc, c_text, v_text) {
        Ok(trees) => typed_verdict(alloc, options, &trees, c_text, v_text, choosers),
        Err(TreesEnd::CRefused(refusal)) => Answer::Refused(options.c_file, refusal),
        Err(TreesEnd::VRefused(refusal)) => Answer::Refused(options.v_file, refusal),
        Err(TreesEnd::Memory) => Answer::Memory,
    }
}

/// The first offence of the C text, or else the verdict on the texts.
fn typed_verdict(
    alloc: Global,
    options: Options,
    trees: &Trees,
    c_text: &[u8],
    v_text: &[u8],
    choosers: &mut Choosers,
) -> Answer
    requires c_fits { length c_text.now ≤ 1048576 }
    requires c_read { HasCTree c_text.now trees.now.c_tree }
    requires v_read { HasVTree v_text.now trees.now.v_tree }
    requires some { 0 < options.budget }
    requires few { options.budget ≤ 2000000000 }
    ensures { IsJudged options c_text.now v_text.now result }
{
    match typed(alloc, &trees.c_tree) {
        Ok(program) => pair_verdict(alloc, options, trees, program, c_text, v_text, choosers),
        Err(TypeEnd::Refused(refusal)) => Answer::Refused(options.c_file, refusal),
        Err(TypeEnd::Memory) => Answer::Memory,
    }
}

/// The verdict on texts that have trees, that of the C text without offence and with this program: on their pair, or on the
/// written forms where the Verilog text isn't one bare module.
fn pair_verdict(
    alloc: Global,
    options: Options,
    trees: &Trees,
    program: CProgram,
    c_text: &[u8],
    v_text: &[u8],
    choosers: &mut Choosers,
) -> Answer
    requires c_fits { length c_text.now ≤ 1048576 }
    requires c_read { HasCTree c_text.now trees.now.c_tree }
    requires v_read { HasVTree v_text.now trees.now.v_tree }
    requires typed { program ≡ program_of trees.now.c_tree }
    requires clean { c_offences trees.now.c_tree ≡ [] }
    requires short { IsShort program }
    requires some { 0 < options.budget }
    requires few { options.budget ≤ 2000000000 }
    ensures { IsJudged options c_text.now v_text.now result }
{
    programs_of_texts_fit();
    match told_beside(alloc, &options, program, &trees.v_tree, choosers) {
        Ok(Joined::OtherModule) => verdict(alloc, options, c_text, v_text),
        Ok(Joined::NotTaken) => Answer::refused(options.c_file, Lang::C, Kind::Unsupported),
        Ok(Joined::Told(told)) => Answer::told(options.c_file, told),
        Err(AllocError) => Answer::Memory,
    }
}

/// The verdict on texts that have trees, that of the C text without offence, beside another module than a bare one. They must be
/// of the written forms, and the options must fit these.
fn verdict(alloc: Global, options: Options, c_text: &[u8], v_text: &[u8]) -> Answer
    requires c_fits { length c_text.now ≤ 1048576 }
    requires c_read { IsClean c_text.now }
    requires v_read { IsOtherModule options v_text.now }
    ensures { IsJudged options c_text.now v_text.now result }
{
    if !fit_forms(&options) {
        return Answer::refused(options.c_file, Lang::C, Kind::Unsupported);
    }
    let Some(program) = read_c(c_text) else {
        return Answer::refused(options.c_file, Lang::C, Kind::Unsupported);
    };
    let Some(counter) = read_v(v_text) else {
        return Answer::refused(options.v_file, Lang::V, Kind::Unsupported);
    };
    if !breaks(program, counter, &options.bounds) {
        return Answer::Successful(Kept::Nothing);
    }
    match trace(alloc, program, counter) {
        Ok(text) => Answer::Failed(text),
        Err(AllocError) => Answer::Memory,
    }
}
