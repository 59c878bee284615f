ghost use Rattle.std.specs.Prelude.{◌≡◌, ◌++◌, IfOk, OnOk};
ghost use Rattle.wg_state.specs.Sending.{is_of, sent_by, sent_to, sent_at, sent_from, sent_through};

use std::alloc::{AllocError, Global};
use wg_machine::{Output, Sent, SentList};
use wg_state::Grant;
use wg_words::Words;

fn belongs(output: u64, element: u64, g: &Grant) -> bool
    ensures { result ≡ is_of output element g.now }
{
    u64::from(g.output) == output && u64::from(g.element) == element
}

/// Sends the records of a grant.
fn send(alloc: Global, unit: u32, g: &Grant, sent: &mut SentList) -> Result<(), AllocError>
    ensures { OnOk result (sent.new ≡ sent.old ++ sent_by unit g.now) }
{
    for item in g.items.as_slice() {
        let words = Words::from_slice(alloc, item.as_slice())?;
        sent.push(Sent { unit, words })?;
    }
    Ok(())
}

/// Sends the records of an element of an output.
fn send_to(
    alloc: Global,
    output: u64,
    element: u64,
    unit: u32,
    grants: &[Grant],
    sent: &mut SentList,
) -> Result<(), AllocError>
    ensures { OnOk result (sent.new ≡ sent.old ++ sent_to output element unit grants.now) }
{
    for g in grants {
        if belongs(output, element, g) {
            send(alloc, unit, g, sent)?;
        }
    }
    Ok(())
}

fn send_at(
    alloc: Global,
    output: u64,
    element: u64,
    target: Option<u32>,
    grants: &[Grant],
    sent: &mut SentList,
) -> Result<(), AllocError>
    ensures { OnOk result (sent.new ≡ sent.old ++ sent_at output element target grants.now) }
{
    match target {
        Some(unit) => send_to(alloc, output, element, unit, grants, sent),
        None => Ok(()),
    }
}

/// Sends the records of an output, by element.
fn send_from(
    alloc: Global,
    output: u64,
    targets: &[Option<u32>],
    grants: &[Grant],
    sent: &mut SentList,
) -> Result<(), AllocError>
    ensures { OnOk result (sent.new ≡ sent.old ++ sent_from output 0 targets.now grants.now) }
{
    for element in 0..targets.len() {
        send_at(
            alloc,
            output,
            element as u64,
            targets[element],
            grants,
            sent,
        )?;
    }
    Ok(())
}

/// The records that a launch sends, by output and element.
pub fn all_sent(alloc: Global, outputs: &[Output], grants: &[Grant]) -> Result<SentList, AllocError>
    ensures { IfOk result (λ sent. sent ≡ sent_through 0 outputs.now grants.now) }
{
    let mut sent = SentList::new(alloc);
    for output in 0..outputs.len() {
        send_from(
            alloc,
            output as u64,
            outputs[output].elements.as_slice(),
            grants,
            &mut sent,
        )?;
    }
    Ok(sent)
}
