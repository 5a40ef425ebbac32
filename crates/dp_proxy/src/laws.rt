//! What holds of all acts of a session.
ghost use Rattle.std.specs.Prelude.{◌≡◌, List, flat_map};
ghost use Rattle.dp_lanes.specs.declared.lane.LaneKind.{LaneKind as Kind};
ghost use Rattle.dp_lanes.specs.Lanes.{frame, texts_in};
ghost use Rattle.dp_proxy.specs.declared.events.Act.{Act as OneAct};
ghost use Rattle.dp_proxy.specs.Links.{all_handed, stream};

/// What the acts of a session hand out in all, each by what came before it, is the whole frames of the stream.
pub fn all_is_handed_out()
    ensures { (kind : Kind) (acts : List OneAct)
        → all_handed kind acts ≡ flat_map (frame kind) (texts_in kind (stream kind acts)) }
{}
