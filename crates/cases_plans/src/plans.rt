//! The plan of a query, step by step.

use case_text::show_count;
use io_edge::NoMemory;
use rel_plan::{RelPlan, plan, prune, push_filters};
use std::alloc::{AllocError, Global};
use typed_trees::{PlanSource, TypedQuery};

fn show_columns(out: &mut String, columns: &[u32]) -> Result<(), AllocError> {
    for place in columns {
        out.push(' ')?;
        show_count(out, *place as u128)?;
    }
    Ok(())
}

fn show_source(out: &mut String, source: &PlanSource) -> Result<(), AllocError> {
    out.push_str(" (")?;
    show_count(out, source.table as u128)?;
    out.push(':')?;
    show_columns(out, source.columns.as_slice())?;
    out.push_str("; ")?;
    show_count(out, source.filter.len() as u128)?;
    out.push(')')?;
    Ok(())
}

fn show_sources(out: &mut String, sources: &[PlanSource]) -> Result<(), AllocError> {
    for source in sources {
        show_source(out, source)?;
    }
    Ok(())
}

fn show_plan(out: &mut String, word: &str, p: &RelPlan) -> Result<(), AllocError> {
    out.push_str(word)?;
    show_sources(out, p.sources.as_slice())?;
    out.push(' ')?;
    show_count(out, p.filter.len() as u128)?;
    out.push_str(if p.grouped { " groups\n" } else { "\n" })
}

fn show_pruned(out: &mut String, alloc: Global, p: RelPlan) -> Result<(), AllocError> {
    if p.sources.len() > 8 {
        return out.push_str("    too many sources\n");
    }
    match prune(alloc, p) {
        Ok(p) => show_plan(out, "    pruned:", &p),
        Err(NoMemory) => out.push_str("    no memory\n"),
    }
}

fn show_pushed(out: &mut String, alloc: Global, p: RelPlan) -> Result<(), AllocError> {
    if p.sources.len() > 8 {
        return out.push_str("    too many sources\n");
    }
    match push_filters(alloc, p) {
        Ok(p) => {
            show_plan(out, "    pushed:", &p)?;
            show_pruned(out, alloc, p)
        }
        Err(NoMemory) => out.push_str("    no memory\n"),
    }
}

/// The plan of a query, then with its conditions pushed, then also with its columns pruned.
pub fn show_plans(out: &mut String, alloc: Global, q: &TypedQuery) -> Result<(), AllocError> {
    match plan(alloc, q) {
        Ok(p) => {
            show_plan(out, "    plan:", &p)?;
            show_pushed(out, alloc, p)
        }
        Err(NoMemory) => out.push_str("    no memory\n"),
    }
}
