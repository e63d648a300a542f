//! Trials of a row: runs over its links with damages of the first one.

use crate::damage::{Damage, damages_of, frames_of};
use crate::joined::put_client_answer;
use crate::served::put_server_answer;
use dp_row_texts::{Answer, Coming, Row, both, filled};
use std::alloc::{AllocError, Global};
use std::mem::replace;

/// A run over damaged links, and what it is to give.
#[derive(Drop)]
pub struct Trial {
    pub name: Vec<u8>,
    pub wires: Vec<Vec<Coming>>,
    pub due: Answer,
}

/// The trials of a row in pieces of this length; there are none if it has no table or no link.
pub fn trials_of(alloc: Global, row: &Row, piece: usize) -> Result<Vec<Trial>, AllocError> {
    let mut trials = Vec::new(alloc);
    let end = put_trials(alloc, row, piece.max(1), &mut trials);
    filled(trials, end)
}

/// Adds the trials of a row, if it has a table and a link.
fn put_trials(
    alloc: Global,
    row: &Row,
    piece: usize,
    trials: &mut Vec<Trial>,
) -> Result<(), AllocError> {
    if row.table.is_empty() {
        return Ok(());
    }
    if let Some(links) = row.wires.first() {
        if let Some(link) = links.first() {
            return put_damaged(alloc, row, link, piece, trials);
        }
    }
    Ok(())
}

/// Adds the trials of a row with this link damaged.
fn put_damaged(
    alloc: Global,
    row: &Row,
    link: &Coming,
    piece: usize,
    trials: &mut Vec<Trial>,
) -> Result<(), AllocError> {
    let frames = frames_of(alloc, &link.bytes)?;
    let damages = damages_of(alloc, &row.table, &frames, piece);
    let (frames, damages) = both(frames, damages)?;
    let end = put_each(alloc, row, link, &frames, &damages, piece, trials);
    drop(damages);
    drop(frames);
    end
}

/// Adds the trial of each damage.
fn put_each<'a>(
    alloc: Global,
    row: &'a Row,
    link: &'a Coming,
    frames: &[&'a [u8]],
    damages: &[Damage<'a>],
    piece: usize,
    trials: &mut Vec<Trial>,
) -> Result<(), AllocError> {
    for damage in damages {
        trials.push(trial_of(alloc, row, link, frames, *damage, piece)?)?;
    }
    Ok(())
}

/// The trial of a damage.
fn trial_of<'a>(
    alloc: Global,
    row: &'a Row,
    link: &Coming,
    frames: &[&'a [u8]],
    damage: Damage<'a>,
    piece: usize,
) -> Result<Trial, AllocError> {
    let damaged = damage.done_to(alloc, link, frames)?;
    let wires = wires_with(alloc, &row.wires, damaged)?;
    let mut trial = Trial {
        name: Vec::new(alloc),
        wires,
        due: Answer::new(alloc),
    };
    let end = put_due(alloc, row, frames, damage, piece, &mut trial);
    filled(trial, end)
}

/// Puts the name of a trial, and what it is to give.
fn put_due<'a>(
    alloc: Global,
    row: &'a Row,
    frames: &[&'a [u8]],
    damage: Damage<'a>,
    piece: usize,
    trial: &mut Trial,
) -> Result<(), AllocError> {
    damage.put_name(&mut trial.name)?;
    let Trial {
        name: _,
        wires,
        due,
    } = trial;
    if row.table.placed.is_empty() {
        put_client_answer(alloc, &row.table.steps, frames, damage, piece, due)
    } else {
        put_server_answer(alloc, row, frames, damage, piece, wires, due)
    }
}

/// Copies of links, with this one in place of the first.
fn wires_with(
    alloc: Global,
    wires: &[Vec<Coming>],
    first: Coming,
) -> Result<Vec<Vec<Coming>>, AllocError> {
    let (first, mut copies) = both(first, copies_of(alloc, wires))?;
    put_link(first, &mut copies);
    Ok(copies)
}

/// Has this link in the place of the first, if there is one.
fn put_link(link: Coming, wires: &mut [Vec<Coming>]) {
    if let Some(links) = wires.first_mut() {
        if let Some(first) = links.first_mut() {
            drop(replace(first, link));
            return;
        }
    }
    drop(link);
}

/// Copies of the links of each wire.
fn copies_of(alloc: Global, wires: &[Vec<Coming>]) -> Result<Vec<Vec<Coming>>, AllocError> {
    let mut copies = Vec::new(alloc);
    let end = put_copies(alloc, wires, &mut copies);
    filled(copies, end)
}

/// Adds copies of the links of each wire.
fn put_copies(
    alloc: Global,
    wires: &[Vec<Coming>],
    copies: &mut Vec<Vec<Coming>>,
) -> Result<(), AllocError> {
    for links in wires {
        copies.push(links_of(alloc, links)?)?;
    }
    Ok(())
}

/// Copies of links.
fn links_of(alloc: Global, links: &[Coming]) -> Result<Vec<Coming>, AllocError> {
    let mut copies = Vec::new(alloc);
    let end = put_links(alloc, links, &mut copies);
    filled(copies, end)
}

/// Adds copies of links.
fn put_links(alloc: Global, links: &[Coming], copies: &mut Vec<Coming>) -> Result<(), AllocError> {
    for link in links {
        copies.push(link.copy(alloc)?)?;
    }
    Ok(())
}
