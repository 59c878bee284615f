use std::alloc::{AllocError, Global};
use wg_machine::{Output, Targets};
use wg_state::{Request, World};
use wg_values::ask;
use wg_words::{Items, WordLists, Words};

/// An output of a present and an absent element.
fn output(alloc: Global) -> Result<Output, AllocError> {
    Ok(Output {
        budget: 0,
        words: 1,
        elements: Targets::from_slice(alloc, &[Some(1), None])?,
    })
}

/// What lanes share before a request, with a budget of four records.
pub fn world(alloc: Global) -> Result<World, AllocError> {
    Ok(World {
        shared: WordLists::new(alloc),
        inputs: WordLists::new(alloc),
        grants: Items::new(alloc),
        left: Words::from_slice(alloc, &[4])?,
        denied: 0,
        buffers: WordLists::new(alloc),
    })
}

/// Makes a request of so many records at an element.
pub fn request(
    alloc: Global,
    element: u32,
    amount: u32,
    world: &mut World,
) -> Result<(), AllocError> {
    let outputs = [output(alloc)?];
    let request = Request {
        handle: None,
        lane: 0,
        output: 0,
        element,
        amount,
    };
    ask(alloc, &outputs, request, world)?;
    Ok(())
}
