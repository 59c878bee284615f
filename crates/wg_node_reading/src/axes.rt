//! The sizes of thread groups and of grids.
ghost use Rattle.std.specs.Prelude.{◌≡◌, ◌≤◌};
ghost use Rattle.wg_node_attributes.specs.Axes as a;

use wg_attribute_arguments::{count_in, first_named, groups_in};
use wg_node_attributes::Axes;
use wg_typed::{TypedArgument, TypedAttribute};

fn one_each() -> Axes
    ensures { result ≡ a.one_each }
{
    Axes { x: 1, y: 1, z: 1 }
}

/// Those of at most 1,024 threads.
fn few_threads(x: u64, y: u64, z: u64) -> Option<Axes>
    requires { (1 ≤ x) × (1 ≤ y) × (1 ≤ z) }
    ensures { result ≡ a.few_threads x y z }
{
    if x > 1024 || y > 1024 || z > 1024 {
        return None;
    }
    if x * y * z <= 1024 {
        Some(Axes {
            x: x as u32,
            y: y as u32,
            z: z as u32,
        })
    } else {
        None
    }
}

fn threads_in(arguments: &[TypedArgument]) -> Option<Axes>
    ensures { result ≡ a.threads_in arguments.now }
{
    let [x, y, z] = arguments else {
        return None;
    };
    let (x, y, z) = (
        count_in(&x.value)?,
        count_in(&y.value)?,
        count_in(&z.value)?,
    );
    few_threads(x, y, z)
}

fn threads_named(list: &[TypedAttribute]) -> Option<Axes>
    ensures { result ≡ a.threads_named list.now }
{
    let threads = first_named(b"NumThreads", list)?;
    threads_in(threads.arguments.as_slice())
}

/// The threads of a group; 1 in each direction where none are said.
pub fn threads_said(list: &[TypedAttribute]) -> Axes
    ensures { result ≡ a.threads_said list.now }
{
    threads_named(list).unwrap_or(one_each())
}

/// Those of less than 2^24 groups.
fn few_groups(x: u64, y: u64, z: u64) -> Option<Axes>
    requires { (x ≤ 65535) × (y ≤ 65535) × (z ≤ 65535) }
    ensures { result ≡ a.few_groups x y z }
{
    if x * y * z < 16_777_216 {
        Some(Axes {
            x: x as u32,
            y: y as u32,
            z: z as u32,
        })
    } else {
        None
    }
}

fn grid_in(arguments: &[TypedArgument]) -> Option<Axes>
    ensures { result ≡ a.grid_in arguments.now }
{
    let [x, y, z] = arguments else {
        return None;
    };
    let (x, y, z) = (
        groups_in(&x.value)?,
        groups_in(&y.value)?,
        groups_in(&z.value)?,
    );
    few_groups(x, y, z)
}

fn grid_named(name: &[u8], list: &[TypedAttribute]) -> Option<Axes>
    ensures { result ≡ a.grid_named name.now list.now }
{
    let grid = first_named(name, list)?;
    grid_in(grid.arguments.as_slice())
}

/// The grid that the attribute of a name says; 1 in each direction where there is none.
pub fn grid_said(name: &[u8], list: &[TypedAttribute]) -> Axes
    ensures { result ≡ a.grid_said name.now list.now }
{
    grid_named(name, list).unwrap_or(one_each())
}
