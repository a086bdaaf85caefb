//! Entries of linear documents to be printed.
use crate::printing::{number_at, small_at};
use lk_model::{Dual, List, OutOfMemory, Share, Stage, Unit, Weight};
use std::alloc::Global;
use std::test::Fail;

/// Takes one stage more, one dual number or one unit.
pub(crate) fn take_linear(
    alloc: Global,
    stages: &mut List<Stage>,
    dual: &mut List<Dual>,
    units: &mut List<Unit>,
    word: &str,
    numbers: &[i128],
) -> Result<(), Fail> {
    match word {
        "stage" => stages.push(Stage {
            weights: weights(alloc, numbers)?,
        })?,
        "dual" => dual.push(Dual {
            pos: small_at(numbers, 0),
            y: number_at(numbers, 1),
        })?,
        "unit" => units.push(unit(alloc, numbers)?)?,
        _ => return Err(Fail::from("no part")),
    }
    Ok(())
}

/// The weights of variables and numbers, which alternate.
fn weights(alloc: Global, numbers: &[i128]) -> Result<List<Weight>, OutOfMemory> {
    let mut weights = List::new(alloc);
    for entry in numbers.chunks(2) {
        weights.push(Weight {
            var: small_at(entry, 0),
            x: number_at(entry, 1),
        })?;
    }
    Ok(weights)
}

/// The unit of a variable and a number, and its shares of positions and numbers, which alternate.
fn unit(alloc: Global, numbers: &[i128]) -> Result<Unit, OutOfMemory> {
    let (front, rest) = numbers.split_at(numbers.len().min(2));
    let mut shares = List::new(alloc);
    for entry in rest.chunks(2) {
        shares.push(Share {
            pos: small_at(entry, 0),
            z: number_at(entry, 1),
        })?;
    }
    Ok(Unit {
        var: small_at(front, 0),
        d: number_at(front, 1),
        shares,
    })
}
