// One record of the record program, run on the tables: the call of the set that it asks for, and the line of the answer.
#![tactic(auto)]

ghost use Rattle.std.specs.Prelude.{◌≡◌, cond, Err};
ghost use Rattle.rules.specs.Change.{tables, changed_outcome};
ghost use Rattle.runs.specs.Step.{step_outcome, result_line, run_rule, step_rule, change_rule, asked_line};

use area::Refusal;
use lines::Line;
use requests::{Request, decode};

// What a request did: the count afterwards, and the line.
#[derive(Clone, Copy)]
pub struct Stepped {
    pub count: usize,
    pub line: Line,
}

// Makes the change that a request asks for. A question and a bad request are accepted and change nothing.
fn change(
    areas: &mut [u64],
    pages: &mut [u32],
    count: usize,
    request: Request,
) -> Result<usize, Refusal>
    ensures { changed_outcome count result areas.new pages.new ≡ change_rule (tables areas.old pages.old count) request }
{
    match request {
        Request::Map {
            start,
            size,
            flags,
            backend,
            replace,
        } => map::map(areas, pages, count, start, size, flags, backend, replace),
        Request::Unmap { start, size } => unmap::unmap(areas, pages, count, start, size),
        Request::Protect {
            start,
            size,
            set,
            clear,
        } => protect::protect(areas, pages, count, start, size, set, clear),
        Request::Clear => unmap::clear(areas, pages, count),
        _ => Ok(count),
    }
}

fn overlap_line(yes: bool) -> Line
    ensures { result ≡ cond yes Line.Over Line.Free }
{
    if yes { Line::Over } else { Line::Free }
}

// The line of a request, on the tables that it left: what a question is told, or `ok`, for a change that was accepted.
fn ask(areas: &[u64], pages: &[u32], count: usize, request: Request) -> Result<Line, Refusal>
    ensures { result_line result ≡ asked_line (tables areas.now pages.now count) request }
{
    match request {
        Request::Find(address) => {
            let area = questions::find(areas, pages, count, address)?;
            Ok(Line::In(area.start, area.end))
        }
        Request::Overlaps { start, size } => {
            let yes = questions::overlaps(areas, pages, count, start, size)?;
            Ok(overlap_line(yes))
        }
        Request::Search {
            hint,
            size,
            limit,
            align,
        } => {
            let at = free_area::find_free_area(areas, pages, count, hint, size, 0, limit, align)?;
            Ok(Line::At(at))
        }
        Request::Bad => Ok(Line::Bad),
        _ => Ok(Line::Ok),
    }
}

// The line of a refused question. `Line::No` alone would do, if it took a refusal and not an answer.
fn refused_line(refusal: Refusal) -> Line
    ensures { result ≡ Line.No (Err refusal) }
{
    Line::No(Err(refusal))
}

// Makes the call that a request asks for.
pub fn run(areas: &mut [u64], pages: &mut [u32], count: usize, request: Request) -> Stepped
    ensures { step_outcome result areas.new pages.new ≡ run_rule (tables areas.old pages.old count) request }
{
    match change(areas, pages, count, request) {
        Ok(count) => Stepped {
            count,
            line: ask(areas, pages, count, request).unwrap_or_else(refused_line),
        },
        Err(refusal) => Stepped {
            count,
            line: Line::No(Err(refusal)),
        },
    }
}

// Runs one record.
pub fn step(areas: &mut [u64], pages: &mut [u32], count: usize, bytes: &[u8]) -> Stepped
    ensures { step_outcome result areas.new pages.new ≡ step_rule (tables areas.old pages.old count) bytes.now }
{
    run(areas, pages, count, decode(bytes))
}
