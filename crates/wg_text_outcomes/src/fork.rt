use sqlite_items::Items;
use std::alloc::{AllocError, Global};
use wg_machine::{Kind, NodeNames, Output, Outputs, Shape, Targets, Unit, Units};
use wg_tree::{Named, Scalar};
use wg_typed::{TypeTree, Typed, TypedExpr, TypedFunction, TypedHandle, TypedKind, TypedStmt};
use wg_words::{Name, Names, Place, Words};

const HERE: Place = Place { line: 1, column: 1 };

fn unnamed(alloc: Global) -> Named {
    Named {
        name: Name::new(alloc),
        place: HERE,
    }
}

/// A request of three records by a handle, each output through its own.
fn request(alloc: Global, handle: u32) -> Result<TypedStmt, AllocError> {
    let words = Words::from_slice(alloc, &[3])?;
    Ok(TypedStmt::Request {
        handle,
        group: false,
        output: handle,
        element: None,
        amount: TypedExpr {
            kind: TypedKind::Literal { words },
            of: TypeTree::Scalar { of: Scalar::Uint },
            place: HERE,
        },
    })
}

fn requests(alloc: Global) -> Result<Items<TypedStmt>, AllocError> {
    let mut body = Items::new(alloc);
    body.push(request(alloc, 0)?)?;
    body.push(request(alloc, 1)?)?;
    Ok(body)
}

fn handles(alloc: Global) -> Result<Items<TypedHandle>, AllocError> {
    let mut handles = Items::new(alloc);
    for output in 0..2 {
        handles.push(TypedHandle {
            name: unnamed(alloc),
            group: false,
            output,
        })?;
    }
    Ok(handles)
}

/// A text of one node, which requests three records of each of its two outputs.
pub fn text(alloc: Global) -> Result<Typed, AllocError> {
    let function = TypedFunction {
        entry: None,
        attributes: Items::new(alloc),
        result: None,
        name: unnamed(alloc),
        parameters: Items::new(alloc),
        variables: Items::new(alloc),
        handles: handles(alloc)?,
        body: requests(alloc)?,
    };
    let mut functions = Items::new(alloc);
    functions.push(function)?;
    Ok(Typed {
        structs: Items::new(alloc),
        buffers: Items::new(alloc),
        shared: Items::new(alloc),
        functions,
    })
}

fn outputs(alloc: Global) -> Result<Outputs, AllocError> {
    let mut outputs = Outputs::new(alloc);
    for unit in 2..4 {
        outputs.push(Output {
            budget: 0,
            words: 1,
            elements: Targets::from_slice(alloc, &[Some(unit)])?,
        })?;
    }
    Ok(outputs)
}

/// Two nodes, each of two outputs with one budget of 4 records; the second one's records are shared.
pub fn shape(alloc: Global) -> Result<Shape, AllocError> {
    let mut units = Units::new(alloc);
    for node in 0..2 {
        units.push(Unit {
            node,
            level: 0,
            depth: 2,
            words: 1,
            stride: 4,
            kind: Kind::Grid { x: 1, y: 1, z: 1 },
            entry: true,
            budgets: Words::from_slice(alloc, &[4])?,
            outputs: outputs(alloc)?,
            bools: Words::new(alloc),
            shared: node == 1,
        })?;
    }
    Ok(Shape {
        nodes: NodeNames::new(alloc),
        units,
        buffers: Names::new(alloc),
    })
}
