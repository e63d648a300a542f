//! Savepoints of the points in reach.

ghost use Rattle.std.specs.Prelude.{◌≡◌, ◌++◌, ◌<◌, IfOk, OnOk, OnErr, IfSome, unwrap_or};
ghost use Rattle.std.specs.Prelude.{is_some, None};
ghost use Rattle.std.specs.Option.{ForSome, option_to_list};
ghost use Rattle.std.specs.Vec.{vec_len, vec_capacity};
ghost use Rattle.std.specs.List.{Contains};
ghost use Rattle.dp_board.specs.Laws.{depth_in};
ghost use Rattle.dp_board.specs.Strokes.{last_few, is_among};
ghost use Rattle.dp_savepoints.specs.Saves.{points_of};
ghost use Rattle.dp_savepoints.specs.Saves.{save_of};

use crate::room::drop_first;
use dp_board::{Act, Board};
use dp_steps::Steps;
use std::alloc::{AllocError, Global};
use std::marker::Model;
use std::sync::Arc;
use std::sync::ledger::Ledger;

/// The savepoint of a point: the board at it. Points with no draw between them share one board.
pub struct Save<B> {
    pub point: usize,
    pub board: Arc<B>,
}

// It is written out, so that it is only called where a savepoint is let go.
impl<B: Drop> Drop for Save<B> {
    fn drop(self) {
        let Save { point: _, board } = self;
        drop(board);
    }
}

impl<B> Model for Save<B> {
    ghost use Rattle.dp_savepoints.specs.Saves.{PointSave};

    ghost Value = { PointSave B };

    ghost view = { λ save. record { point = save.point; board = save.board.value } };
}

/// A copy of the savepoints.
pub fn copy_saves<B: Drop>(alloc: Global, saves: &[Save<B>]) -> Result<Vec<Save<B>>, AllocError>
    ensures { IfOk result (λ copies. copies.items ≡ saves.now) }
{
    let mut copies = Vec::with_capacity(alloc, saves.len())?;
    for save in saves {
        copies.push(Save {
            point: save.point,
            board: save.board.clone()?,
        })?;
    }
    Ok(copies)
}

/// A board as it is now: what it was saved as last, if it has not changed since.
fn save_board<B: Board, D: Ledger, T: Ledger>(
    alloc: Global,
    board: &B,
    last: &Option<Arc<B>>,
    draws: &mut Steps<D>,
    tiles: &mut Steps<T>,
) -> Result<Arc<B>, AllocError>
    requires { ForSome last.now (λ save. save.value ≡ board.now) }
    ensures saved { IfOk result (λ save. save.value ≡ board.now) }
    ensures no_draw { draws.new ≡ draws.old }
    ensures no_tile { tiles.new ≡ tiles.old }
{
    match last {
        Some(save) => save.clone(),
        None => Ok(Arc::new(alloc, board.share(draws, tiles)?)?),
    }
}

/// Forgets the board that was saved last.
pub fn forget<B: Drop>(last: &mut Option<Arc<B>>)
    ensures { last.new ≡ None }
{
    *last = None;
}

/// The savepoint of an act that comes next, if it is a point.
pub fn save_of<B: Board, D: Ledger, T: Ledger>(
    alloc: Global,
    position: usize,
    board: &B,
    last: &Option<Arc<B>>,
    act: &Act<B::Op>,
    draws: &mut Steps<D>,
    tiles: &mut Steps<T>,
) -> Result<Option<Save<B>>, AllocError>
    requires { ForSome last.now (λ save. save.value ≡ board.now) }
    ensures saved { IfOk result
        (λ save. option_to_list save ≡ save_of position board.now act.now) }
    ensures no_draw { draws.new ≡ draws.old }
    ensures no_tile { tiles.new ≡ tiles.old }
{
    Ok(match act {
        Act::Point => Some(Save {
            point: position,
            board: save_board(alloc, board, last, draws, tiles)?,
        }),
        _ => None,
    })
}

/// The savepoint of an act that comes next, if it is a point. The board was saved as that last.
pub fn save_last<B: Board, D: Ledger, T: Ledger>(
    alloc: Global,
    position: usize,
    board: &B,
    last: &mut Option<Arc<B>>,
    act: &Act<B::Op>,
    draws: &mut Steps<D>,
    tiles: &mut Steps<T>,
) -> Result<Option<Save<B>>, AllocError>
    requires { ForSome last.old (λ save. save.value ≡ board.now) }
    ensures saved { IfOk result
        (λ save. option_to_list save ≡ save_of position board.now act.now) }
    ensures last { ForSome last.new (λ save. save.value ≡ board.now) }
    ensures no_draw { draws.new ≡ draws.old }
    ensures no_tile { tiles.new ≡ tiles.old }
{
    match act {
        Act::Point => {
            let saved = save_board(alloc, board, last, draws, tiles)?;
            *last = Some(saved.clone()?);
            Ok(Some(Save {
                point: position,
                board: saved,
            }))
        }
        _ => Ok(None),
    }
}

/// How many points are in reach at most after an act.
pub fn depth_after<Op>(depth: usize, act: &Act<Op>) -> usize
    ensures { result ≡ unwrap_or (depth_in act.now) depth }
{
    match act {
        Act::Depth(depth) => usize::from(*depth),
        _ => depth,
    }
}

/// Adds a savepoint, if there is one, and keeps those of the last points alone. It takes no
/// memory.
pub fn put_save<B: Drop>(saves: &mut Vec<Save<B>>, save: Option<Save<B>>, depth: usize)
    requires room { vec_len saves.old < vec_capacity saves.old }
    ensures { saves.new.items ≡ last_few depth (saves.old.items ++ option_to_list save) }
{
    if let Some(save) = save {
        saves.push_reserved(save);
    }
    let count = saves.len().saturating_sub(depth);
    drop_first(saves, count);
}

/// Adds a savepoint, if there is one, and keeps those of the last points alone.
///
/// # Errors
///
/// The savepoints are as they were.
pub fn push_save<B: Drop>(
    saves: &mut Vec<Save<B>>,
    save: Option<Save<B>>,
    depth: usize,
) -> Result<(), AllocError>
    ensures added { OnOk result
        (saves.new.items ≡ last_few depth (saves.old.items ++ option_to_list save)) }
    ensures err { OnErr result (saves.new.items ≡ saves.old.items) }
{
    saves.reserve(1)?;
    put_save(saves, save, depth);
    Ok(())
}

/// The savepoint of a point, if it has one.
pub fn save_at<B>(saves: &[Save<B>], point: usize) -> Option<&Save<B>>
    ensures found { IfSome result
        (λ save. (save.now.point ≡ point) × Contains saves.now save.now) }
    ensures among { is_some result ≡ is_among (points_of saves.now) point }
{
    for save in saves {
        if save.point == point {
            return Some(save);
        }
    }
    None
}
