//! The reports of runs.

ghost use Rattle.std.specs.Prelude.{◌≡◌, ◌<◌, ◌^◌, ◌++◌, ℕ, List, IfOk, OnOk, codes, get_or, length};
ghost use Rattle.std.specs.List.{flat_map, range_with_len};
ghost use Rattle.flow_graph.specs.declared.state.State.{State};
ghost use Rattle.flow_rules.specs.declared.verdict.Verdict.TheVariants.{Accepted};
ghost use Rattle.flow_score.specs.Scores.{score_text};
ghost use Rattle.flow_score.specs.Seating.{Seats};
ghost use Rattle.flow_score.specs.VerdictText.{IsOf, verdict_text};
ghost use Rattle.op_base.specs.Columns.{Row};
ghost use Rattle.osh_ends.specs.Reports.{count_line, fault_report, report};
ghost use Rattle.run_finish.specs.Reported.{AreCounts};

use ds_value::{Bytes, NoMemory};
use flow_graph::{Choice, Shaped};
use flow_rules::Verdict;
use flow_score::{score_text, verdict_text};
use op_base::Fault;
use osh_ends::{put, put_count, put_faults};
use std::alloc::Global;

/// The score and the verdict, with which a report begins.
fn head(
    alloc: Global,
    shaped: &Shaped,
    verdict: &Verdict,
    choices: &[Choice],
    nodes: u32,
    players: u32,
) -> Result<Bytes, NoMemory>
    requires of { IsOf shaped.now verdict.now }
    requires each { length choices.now ≡ length shaped.now.flow.links }
    requires seats { Seats shaped.now choices.now nodes players }
    ensures { IfOk result (λ text. text ≡ score_text shaped.now choices.now nodes ++ verdict_text shaped.now verdict.now) }
{
    shaped.is_shaped();
    let mut text = score_text(alloc, shaped, choices, nodes, players)?;
    let verdict = verdict_text(alloc, shaped, verdict)?;
    text.append(verdict.as_slice())?;
    Ok(text)
}

/// The number of rows of a link.
fn count_at(counts: &[u64], link: usize) -> u64
    ensures { result ≡ get_or counts.now link 0 }
{
    match counts.get(link) {
        Some(count) => *count,
        None => 0,
    }
}

/// A line for each link.
fn put_counts(alloc: Global, text: &mut Bytes, links: usize, counts: &[u64]) -> Result<(), NoMemory>
    requires { links < 2 ^ 32 }
    ensures { OnOk result (text.new ≡ text.old ++ flat_map (λ l. count_line l (get_or counts.now l 0)) (range_with_len 0 links)) }
{
    for link in 0..links {
        put_count(alloc, text, link as u32, count_at(counts, link))?;
    }
    Ok(())
}

/// The report of a run without faults, with the number of rows of each link.
pub fn report_text(
    alloc: Global,
    shaped: &Shaped,
    verdict: &Verdict,
    choices: &[Choice],
    nodes: u32,
    players: u32,
    counts: &[u64],
) -> Result<Bytes, NoMemory>
    requires of { IsOf shaped.now verdict.now }
    requires each { length choices.now ≡ length shaped.now.flow.links }
    requires seats { Seats shaped.now choices.now nodes players }
    ensures { (states : List State) (whole : ℕ → List Row) → verdict.now ≡ Accepted states choices.now → AreCounts shaped.now whole counts.now → IfOk result (λ text. text ≡ report shaped.now states choices.now nodes whole) }
{
    shaped.is_shaped();
    let links = shaped.flow().links.as_slice().len();
    let mut text = head(alloc, shaped, verdict, choices, nodes, players)?;
    put_counts(alloc, &mut text, links, counts)?;
    put(&mut text, "status 0\n")?;
    Ok(text)
}

/// The report of a run with this number of faults.
pub fn fault_text(
    alloc: Global,
    shaped: &Shaped,
    verdict: &Verdict,
    choices: &[Choice],
    nodes: u32,
    players: u32,
    faults: u64,
    least: &Fault,
) -> Result<Bytes, NoMemory>
    requires of { IsOf shaped.now verdict.now }
    requires each { length choices.now ≡ length shaped.now.flow.links }
    requires seats { Seats shaped.now choices.now nodes players }
    ensures { (states : List State) → verdict.now ≡ Accepted states choices.now → IfOk result (λ text. text ≡ fault_report shaped.now states choices.now nodes faults least.now) }
{
    let mut text = head(alloc, shaped, verdict, choices, nodes, players)?;
    put_faults(alloc, &mut text, faults, least)?;
    put(&mut text, "status 9\n")?;
    Ok(text)
}
