//! Solutions as lines. Used by the commands of `search_run` that list solutions.
ghost use Rattle.std.specs.Prelude.{◌≡◌, ◌+◌, ◌*◌, ◌≤◌, ◌++◌, ◌==◌, if◌then◌else◌, All, length, OnOk, OnErr, codes};
ghost use Rattle.source_io.specs.Told.{Rose};
ghost use Rattle.source_io.specs.Written.{Writes};
ghost use Rattle.query_model.specs.Rules.{IsVariable};
ghost use Rattle.query_model.specs.Text.{field_of, line_of, lines_of};

use crate::line::Line;
use domains::Point;
use itoa::Buffer;
use query_model::{Query, Variable};
use source_io::{Failed, Sink, write_whole};

/// Appends a space to a line that has i fields, if it has any.
fn push_space(line: &mut Line, i: usize)
    requires { length line.old ≤ 360 }
    ensures text { line.new ≡ (if i == 0 then line.old else line.old ++ codes " ") }
    ensures short { length line.new ≤ length line.old + 1 }
{
    if i != 0 {
        line.push(b" ");
    }
}

/// Appends a variable's name, an equals sign and its value to a line.
fn push_field(line: &mut Line, variable: &Variable, value: i32)
    requires room { length line.old ≤ 356 }
    requires rules { IsVariable variable.now }
    ensures text { line.new ≡ line.old ++ field_of variable.now value }
    ensures short { length line.new ≤ length line.old + 44 }
{
    line.push(variable.name.as_bytes());
    line.push(b"=");
    let mut digits = Buffer::new();
    line.push(digits.format(value).as_bytes());
}

/// The line of a solution, which has one value for each variable of the query.
fn solution_line(query: &Query, point: &Point) -> Line
    requires { length point.now ≡ length query.now.variables }
    ensures { result ≡ line_of query.now point.now }
{
    let variables = query.variables();
    let mut line = Line::new();
    for (i, variable) in variables.iter().enumerate() {
        push_space(&mut line, i);
        push_field(&mut line, variable, point.value(i as u8));
    }
    line.push(b"\n");
    line
}

/// Prints the line of each of these solutions, in order, with one `write_whole` each. `Failed` if a write failed, which
/// the sink counts. Then a prefix of the lines was written.
pub fn print_solutions<K: Sink>(query: &Query, points: &[Point], sink: &mut K) -> Result<(), Failed>
    requires { All (λ p. length p ≡ length query.now.variables) points.now }
    ensures written { Writes result (lines_of query.now points.now)
        (K.written sink.old) (K.written sink.new) }
    ensures cause { OnErr result (Rose (K.faults sink.old) (K.faults sink.new)) }
    ensures faults { K.faults sink.old ≤ K.faults sink.new }
    ensures no_fault { OnOk result (K.faults sink.new ≡ K.faults sink.old) }
{
    for point in points {
        let line = solution_line(query, point);
        write_whole(sink, line.as_bytes())?;
    }
    Ok(())
}
