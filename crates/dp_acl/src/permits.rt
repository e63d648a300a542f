//! Which messages a user may send.

ghost use Rattle.std.specs.Prelude.{◌≡◌, ℕ, ◌/◌, ◌&&◌, not, nat_le, List};
ghost use Rattle.std.specs.Option.{option_map};
ghost use Rattle.dp_messages.specs.declared.message.Entry.{Entry as Item};
ghost use Rattle.dp_acl.specs.Rights.{tier_of, is_locked, lets_paint, may_paint, may_edit_layer};
ghost use Rattle.dp_acl.specs.Rights.{creator_of};
ghost use Rattle.dp_acl.specs.Permitted.{permits_control, permits_meta, permits_draw, permits_undo};
ghost use Rattle.dp_acl.specs.Permitted.{permitted};
ghost use Rattle.dp_acl.specs.Table.{StandsFor};
ghost use Rattle.dp_acl.specs.Inside.{kept_of};

use crate::rights::Rights;
use crate::rules::Rule;
use dp_messages::Msg;
use dp_msg_draw::Draw;
use dp_msg_meta::{Control, Meta};

/// The user who made the layer.
fn creator_of(layer: u16) -> u16
    ensures { result ≡ creator_of layer }
{
    layer / 256
}

impl Rights {
    /// Whether the user may send the message now. It takes no memory, and costs not the history.
    ///
    /// The rule: docs/protocol.md, "Rights".
    pub fn permits(&self, user: u8, msg: &Msg) -> bool
        ensures { (history : List Item) → StandsFor self.now history
            → result ≡ permitted history user msg.now }
    {
        match msg {
            Msg::Control(control) => self.permits_control(user, control),
            Msg::Meta(meta) => self.permits_meta(user, meta),
            Msg::Part(_) => self.is_operator(user),
            Msg::Point => !self.is_locked(user),
            Msg::Undo { target, .. } => self.permits_undo(user, *target),
            Msg::Draw(command) => self.permits_draw(user, command),
            Msg::Opaque { .. } => true,
        }
    }

    fn permits_control(&self, user: u8, control: &Control) -> bool
        ensures { (history : List Item) → StandsFor self.now history
            → result ≡ permits_control history user control.now }
    {
        match control {
            Control::Hello { .. } => false,
            Control::Disconnect { .. } => true,
            Control::Ping { .. } => true,
            Control::Ack { .. } => true,
            Control::Welcome { .. } => false,
            Control::ResetBegin => self.is_operator(user),
            Control::ResetEnd => self.is_operator(user),
            Control::ResetFrom { .. } => self.is_operator(user),
        }
    }

    fn permits_meta(&self, user: u8, meta: &Meta) -> bool
        ensures { (history : List Item) → StandsFor self.now history
            → result ≡ permits_meta history user meta.now }
    {
        match meta {
            Meta::Join { .. } => false,
            Meta::Leave => false,
            Meta::Owners { .. } => self.is_operator(user),
            Meta::Chat { .. } => true,
            Meta::Trusted { .. } => self.is_operator(user),
            Meta::ResetMark { .. } => false,
            Meta::Laser { .. } => self.has_feature(user, self.tiers.laser),
            Meta::MovePointer { .. } => true,
            Meta::UserAcl { .. } => self.is_operator(user),
            Meta::LayerAcl { layer, .. } => {
                self.is_operator(user) || creator_of(*layer) == u16::from(user)
            }
            Meta::FeatureTiers { .. } => self.is_operator(user),
            Meta::Filtered { .. } => false,
            Meta::UndoDepth { .. } => self.is_operator(user),
        }
    }

    fn permits_draw(&self, user: u8, command: &Draw) -> bool
        ensures { (history : List Item) → StandsFor self.now history
            → result ≡ permits_draw history user command.now }
    {
        match command {
            Draw::CanvasResize { .. } => self.may_use(user, self.tiers.resize),
            Draw::LayerCreate { id, .. } => self.may_edit_layer(user, *id),
            Draw::LayerAttr { id, .. } => self.may_edit_layer(user, *id),
            Draw::LayerTitle { id, .. } => self.may_edit_layer(user, *id),
            Draw::LayerMove { id, .. } => self.may_edit_layer(user, *id),
            Draw::LayerDelete { id } => self.may_edit_layer(user, *id),
            Draw::PutImage { layer, .. } => self.may_paint_by(user, *layer, self.tiers.image),
            Draw::FillRect { layer, .. } => self.may_paint(user, *layer),
            Draw::PutTile { layer, .. } => self.may_paint_by(user, *layer, self.tiers.image),
            Draw::Background { .. } => self.may_use(user, self.tiers.background),
            Draw::DabsRound { layer, .. } => self.may_paint(user, *layer),
            Draw::DabsSquare { layer, .. } => self.may_paint(user, *layer),
            Draw::MoveRect { layer, .. } => self.may_paint_by(user, *layer, self.tiers.move_),
        }
    }

    fn permits_undo(&self, user: u8, target: u8) -> bool
        ensures { (history : List Item) → StandsFor self.now history
            → result ≡ permits_undo history user target }
    {
        if target == 0 || target == user {
            self.may_use(user, self.tiers.undo)
        } else {
            self.is_operator(user)
        }
    }

    /// The number of the user's tier.
    fn tier_of(&self, user: u8) -> u8
        ensures { (history : List Item) → StandsFor self.now history
            → result ≡ tier_of history user }
    {
        if self.is_operator(user) {
            0
        } else if self.trusted.contains(user) {
            1
        } else if self.registered.contains(user) {
            2
        } else {
            3
        }
    }

    /// Whether the user has a feature of this tier.
    fn has_feature(&self, user: u8, tier: u8) -> bool
        ensures { (history : List Item) → StandsFor self.now history
            → result ≡ nat_le (tier_of history user) tier }
    {
        self.tier_of(user) <= tier
    }

    fn is_locked(&self, user: u8) -> bool
        ensures { (history : List Item) → StandsFor self.now history
            → result ≡ is_locked history user }
    {
        !self.is_operator(user) && (self.all_locked || self.lock_listed.contains(user))
    }

    /// Whether the user isn't locked, and has a feature of this tier.
    fn may_use(&self, user: u8, tier: u8) -> bool
        ensures { (history : List Item) → StandsFor self.now history
            → result ≡ (not (is_locked history user) && nat_le (tier_of history user) tier) }
    {
        !self.is_locked(user) && self.has_feature(user, tier)
    }

    /// Whether the rule of a layer lets the user paint there.
    fn lets_paint(&self, user: u8, rule: &Rule) -> bool
        ensures { (history : List Item) → StandsFor self.now history
            → result ≡ lets_paint history user (kept_of rule.now).rule }
    {
        !rule.locked
            && (self.is_operator(user)
                || (self.has_feature(user, rule.tier) && rule.ids.is_open_to(user)))
    }

    fn may_paint(&self, user: u8, layer: u16) -> bool
        ensures { (history : List Item) → StandsFor self.now history
            → result ≡ may_paint history user layer }
    {
        if self.is_locked(user) {
            return false;
        }
        match self.rules.find(layer) {
            Some(rule) => self.lets_paint(user, rule),
            None => true,
        }
    }

    /// Whether the user may paint on the layer, and has a feature of this tier.
    fn may_paint_by(&self, user: u8, layer: u16, tier: u8) -> bool
        ensures { (history : List Item) → StandsFor self.now history
            → result ≡ (may_paint history user layer && nat_le (tier_of history user) tier) }
    {
        self.may_paint(user, layer) && self.has_feature(user, tier)
    }

    fn may_edit_layer(&self, user: u8, layer: u16) -> bool
        ensures { (history : List Item) → StandsFor self.now history
            → result ≡ may_edit_layer history user layer }
    {
        !self.is_locked(user)
            && (self.has_feature(user, self.tiers.edit_layers)
                || (self.has_feature(user, self.tiers.own_layers)
                    && creator_of(layer) == u16::from(user)))
    }
}
