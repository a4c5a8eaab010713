ghost use Rattle.std.specs.Prelude.{◌≡◌, ◌⊎◌, Err, IsTrue, IfOk, IfErr, OnOk};
ghost use Rattle.lwkt_checker.specs.LineReading.{left_of};
ghost use Rattle.lwkt_checker.specs.LineOutput.{KnowsAll, FindsInLines, DeclaresIn, ReportsLines};

use crate::judges::Finding;
use crate::line_judges::LineJudge;
use crate::lines::Lines;
use crate::programs::write_finding;
use lwkt_report::{RunFault, Sink, Source};
use std::alloc::Global;

// Feeds a judge each line of a source, up to its end or to the line with the first bad part.
fn feed_lines<S: Source>(
    alloc: Global,
    lines: &mut Lines,
    source: &mut S,
) -> Result<LineJudge, RunFault>
    ensures stated { IfOk result (λ judge. KnowsAll (left_of lines.old (S.left source.old)) judge) }
    ensures refused { IfErr result (λ why. DeclaresIn (left_of lines.old (S.left source.old)) why) }
    ensures stream { result ≡ Err RunFault.Stream → IsTrue (S.has_failed source.new) }
    ensures ok { OnOk result (S.has_failed source.new ≡ S.has_failed source.old) }
{
    let mut judge = LineJudge::new();
    loop {
        let is_ended = match lines.read_line(source) {
            Ok(is_ended) => is_ended,
            Err(why) => return Err(why),
        };
        if !is_ended && lines.line.is_empty() {
            return Ok(judge);
        }
        judge = match judge.feed(alloc, lines.line.as_slice()) {
            Ok(after) => after,
            Err(fault) => return Err(RunFault::Fault(fault)),
        };
        if !is_ended {
            return Ok(judge);
        }
    }
}

/// Reads a trace in lines to its end, or to the line with its first bad part, and judges it. The line that is refused is then
/// the one that was read last.
///
/// Refused with `Fault`: `Script` with the place of its first bad part, `Limits` or `LawBroken` for its opening, `Memory` for
/// a refused allocation; with `Stream` only if a call of the source failed.
pub fn judge_lines<S: Source>(
    alloc: Global,
    lines: &mut Lines,
    source: &mut S,
) -> Result<Finding, RunFault>
    ensures found { IfOk result (λ finding. FindsInLines (left_of lines.old (S.left source.old)) finding) }
    ensures refused { IfErr result (λ why. DeclaresIn (left_of lines.old (S.left source.old)) why) }
    ensures stream { result ≡ Err RunFault.Stream → IsTrue (S.has_failed source.new) }
    ensures ok { OnOk result (S.has_failed source.new ≡ S.has_failed source.old) }
{
    match feed_lines(alloc, lines, source)?.finding() {
        Ok(finding) => Ok(finding),
        Err(fault) => Err(RunFault::Fault(fault)),
    }
}

/// Reads a trace in lines to its end, or to the line with its first bad part, judges it, and writes what was found of it,
/// which is whole in memory before its first byte is written. The answer is whether it is lawful.
///
/// Refused with `Fault` and nothing written: `Script` with the place of its first bad part, `Limits` or `LawBroken` for its
/// opening, `Memory` for a refused allocation; with `Stream` only if a call of the source or the sink failed, and then a
/// front of the text stands.
pub fn check_lines<S: Source, K: Sink>(
    alloc: Global,
    lines: &mut Lines,
    source: &mut S,
    sink: &mut K,
) -> Result<bool, RunFault>
    ensures reports { ReportsLines (left_of lines.old (S.left source.old)) (K.contents sink.old) (K.contents sink.new) result }
    ensures stream { result ≡ Err RunFault.Stream → IsTrue (S.has_failed source.new) ⊎ IsTrue (K.has_failed sink.new) }
    ensures flushed { OnOk result (K.is_flushed sink.new) }
    ensures unfailed { OnOk result ((S.has_failed source.new ≡ S.has_failed source.old) × (K.has_failed sink.new ≡ K.has_failed sink.old)) }
{
    let finding = judge_lines(alloc, lines, source)?;
    write_finding(alloc, sink, &finding)
}
