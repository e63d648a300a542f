//! The rounds of a drill.

ghost use Rattle.std.specs.Prelude.{◌≡◌, ◌<◌, ◌^◌, None, IfOk, OnOk};
ghost use Rattle.std.specs.List.{fold};
ghost use Rattle.dp_drill.specs.Flow.{flow_after};
ghost use Rattle.dp_drill.specs.Schedule.{IsBrush, dab, first_actions, round, round_brush};
ghost use Rattle.dp_drill.specs.Schedule.{round_of, rounds, square};

use crate::flow::Flow;
use crate::numbers::{drill_number, next};
use dp_messages::Msg;
use dp_msg_draw::{Dab, Dabs, Draw, Title};
use dp_sure_session::SureSession;
use std::alloc::{AllocError, Global};

/// The layer of the first client.
const LAYER: u16 = 257;

/// Where a round draws, and in which colour: three bytes, the highest red.
#[derive(Clone, Copy)]
pub(crate) struct Brush {
    pub x: u32,
    pub y: u32,
    pub rgb: u32,
}

/// Three clients join, and the first makes a canvas with a layer.
pub(crate) fn begin<S: SureSession>(alloc: Global, flow: &mut Flow<S>) -> Result<(), AllocError>
    requires { flow.old.past.first_fault ≡ None }
    ensures ok { OnOk result (flow.new ≡ fold flow_after flow.old first_actions) }
    ensures sure { OnOk result (flow.new.past.first_fault ≡ None) }
{
    flow.join(b"a")?;
    flow.join(b"b")?;
    flow.join(b"c")?;
    let size = Draw::CanvasResize {
        top: 0,
        right: 256,
        bottom: 256,
        left: 0,
    };
    flow.say(1, Msg::Draw(size))?;
    let layer = Draw::LayerCreate {
        id: LAYER,
        parent: 0,
        group: false,
        title: Title::new(alloc),
    };
    flow.say(1, Msg::Draw(layer))?;
    flow.send(1)?;
    flow.send(1)
}

/// This number of rounds, from a state of the generator on.
pub(crate) fn play_rounds<S: SureSession>(
    alloc: Global,
    flow: &mut Flow<S>,
    seed: u64,
    count: u32,
) -> Result<(), AllocError>
    requires { flow.old.past.first_fault ≡ None }
    ensures ok { OnOk result (flow.new ≡ fold flow_after flow.old (rounds seed count)) }
    ensures sure { OnOk result (flow.new.past.first_fault ≡ None) }
{
    let mut x = seed;
    for _ in 0..count {
        let first = next(x);
        let second = next(first);
        let r = drill_number(first);
        let v = drill_number(second);
        play_round(alloc, flow, r, v)?;
        x = second;
    }
    Ok(())
}

/// A round, of the two numbers that it takes.
#[tactic(auto, unfolding(crate::specs::Schedule::round))]
fn play_round<S: SureSession>(
    alloc: Global,
    flow: &mut Flow<S>,
    r: u64,
    v: u64,
) -> Result<(), AllocError>
    requires sure { flow.old.past.first_fault ≡ None }
    requires small { (r < 2 ^ 31) × (v < 2 ^ 31) }
    ensures ok { OnOk result (flow.new ≡ fold flow_after flow.old (round r v)) }
    ensures sure { OnOk result (flow.new.past.first_fault ≡ None) }
{
    let client = (1 + r % 3) as u32;
    let kind = (r / 3 % 16) as u8;
    let brush = round_brush(r / 3 / 16, v);
    do_round(alloc, flow, client, kind, brush)
}

/// The brush of a round, by a part of its first number and by its second.
fn round_brush(s: u64, v: u64) -> Brush
    ensures { result ≡ round_brush s v }
{
    Brush {
        x: (s % 256) as u32,
        y: (s / 256 % 256) as u32,
        rgb: (v % (1 << 24)) as u32,
    }
}

/// What a client does in a round of this kind. What it takes leaves the session as it is.
#[tactic(auto, using(crate::proofs::Schedules::take_made))]
fn do_round<S: SureSession>(
    alloc: Global,
    flow: &mut Flow<S>,
    client: u32,
    kind: u8,
    brush: Brush,
) -> Result<(), AllocError>
    requires sure { flow.old.past.first_fault ≡ None }
    requires brush { IsBrush brush }
    ensures ok { OnOk result (flow.new
        ≡ fold flow_after flow.old (round_of client kind brush)) }
    ensures sure { OnOk result (flow.new.past.first_fault ≡ None) }
{
    match kind {
        0 => flow.say(client, Msg::Point),
        1..=3 => flow.say(client, square(brush)),
        4 => flow.say(client, dab(alloc, brush)?),
        5 => flow.say(
            client,
            Msg::Undo {
                target: 0,
                redo: false,
            },
        ),
        6..=11 => flow.send(client),
        _ => Ok(()),
    }
}

/// A square of 16 by 16 pixels.
fn square(brush: Brush) -> Msg
    requires { brush.rgb < 2 ^ 24 }
    ensures { result ≡ square brush }
{
    Msg::Draw(Draw::FillRect {
        layer: LAYER,
        mode: 1,
        x: brush.x,
        y: brush.y,
        w: 16,
        h: 16,
        color: 0xff00_0000 + brush.rgb,
    })
}

/// A round dab of 9 pixels, half opaque.
fn dab(alloc: Global, brush: Brush) -> Result<Msg, AllocError>
    requires { IsBrush brush }
    ensures { IfOk result (λ msg. msg ≡ dab brush) }
{
    let mut dabs = Vec::new(alloc);
    dabs.push(Dab {
        dx: 0,
        dy: 0,
        size: 9,
        opacity: 128,
    })?;
    Ok(Msg::Draw(Draw::DabsRound {
        layer: LAYER,
        x: brush.x as i32,
        y: brush.y as i32,
        r: (brush.rgb / 65536) as u8,
        g: (brush.rgb / 256 % 256) as u8,
        b: (brush.rgb % 256) as u8,
        mode: 1,
        dabs: Dabs::from_vec(dabs),
    }))
}
