//! Laws on reception and on what a medium holds, each a function that does nothing and has the law as its contract.
ghost use Rattle.std.specs.Prelude.{◌≡◌, ◌≢◌, ◌↔◌, ◌<◌, ◌≤◌, ℕ, List, Option, option_map};
ghost use Rattle.lwb_base.specs.Profile.{Numbers, IsProfile};
ghost use Rattle.link_trace.specs.Masks.{AreNodes};
ghost use Rattle.radio_model.specs.OnAir.{Sending};
ghost use Rattle.radio_model.specs.Hearing.{Scene, HearsInScene};
ghost use Rattle.radio_model.specs.Stations.{MediumState, IsMedium, KeepsNode, nodes_of, station_of, first_state, station_after_tuning, station_after_start};
ghost use Rattle.radio_model.specs.Stations.{station_after_end, medium_after_change};
ghost use Rattle.radio_model.specs.Holding.{Agree, Holds, SameHistory, as_it_stands, after_tuning, after_starting};
ghost use Rattle.radio_model.specs.declared.station.Station.{Station};

/// Who receives a transmission is settled when it ends: nothing that happens from then on counts.
pub fn hearing_is_settled()
    ensures { (a b : Scene) (v : ℕ) (x : Sending) → x.start < x.end → Agree x.end a b
        → HearsInScene a v x ↔ HearsInScene b v x }
{}

/// What a medium holds does not depend on how ended tunings that meet are split.
pub fn same_history_is_held()
    ensures { (m : MediumState) (a b : Scene) → SameHistory m.now a b → Holds m a → Holds m b }
{}

/// What a call at t does to the medium and the scene changes nothing before t, and time that passes changes nothing
/// before the tick up to which it is compared.
pub fn calls_change_nothing_before()
    ensures tuning { (m : MediumState) (v : ℕ) (rank : Option ℕ) (t : ℕ) (a : Scene) → AreNodes (nodes_of m) → Holds m a → m.now ≤ t
        → Agree t (as_it_stands m t a) (as_it_stands (medium_after_change t v (station_after_tuning rank t) m) t (after_tuning m v rank t a)) }
    ensures starting { (m : MediumState) (v t : ℕ) (packet : List ℕ) (a : Scene)
        → Agree t (as_it_stands m t a) (as_it_stands (medium_after_change t v (station_after_start m.numbers t packet) m) t (after_starting m v t packet a)) }
    ensures ending { (m : MediumState) (v t : ℕ) (a : Scene) → Agree t (as_it_stands m t a) (as_it_stands (medium_after_change t v station_after_end m) t a) }
    ensures waiting { (m : MediumState) (s t : ℕ) (a : Scene) → s ≤ t → Agree s (as_it_stands m s a) (as_it_stands m t a) }
{}

/// Scenes that agree before a tick can replace one another, and they agree before each earlier tick.
pub fn agreement_is_an_equivalence()
    ensures same { (t : ℕ) (a : Scene) → Agree t a a }
    ensures back { (t : ℕ) (a b : Scene) → Agree t a b → Agree t b a }
    ensures on { (t : ℕ) (a b c : Scene) → Agree t a b → Agree t b c → Agree t a c }
    ensures earlier { (s t : ℕ) (a b : Scene) → s ≤ t → Agree t a b → Agree s a b }
{}

/// A call changes the station of its node alone, and leaves each station its node's.
pub fn stations_after()
    ensures nodes { (m : MediumState) (t v : ℕ) (change : Station → Station) → KeepsNode change → nodes_of (medium_after_change t v change m) ≡ nodes_of m }
    ensures node { (m : MediumState) (t v : ℕ) (change : Station → Station) → KeepsNode change
        → station_of (medium_after_change t v change m) v ≡ option_map change (station_of m v) }
    ensures others { (m : MediumState) (t v : ℕ) (change : Station → Station) → KeepsNode change → (w : ℕ) → w ≢ v
        → station_of (medium_after_change t v change m) w ≡ station_of m w }
    ensures tuning { (rank : Option ℕ) (t : ℕ) → KeepsNode (station_after_tuning rank t) }
    ensures starting { (p : Numbers) (t : ℕ) (packet : List ℕ) → KeepsNode (station_after_start p t packet) }
    ensures ending { KeepsNode station_after_end }
{}

/// A medium is one from its first state on, through each call.
pub fn mediums_stay()
    ensures first { (p : Numbers) (nodes : List ℕ) → IsProfile p → AreNodes nodes → IsMedium (first_state p nodes) }
    ensures nodes { (p : Numbers) (nodes : List ℕ) → nodes_of (first_state p nodes) ≡ nodes }
    ensures tuning { (m : MediumState) (v : ℕ) (rank : Option ℕ) (t : ℕ) → IsMedium m → IsMedium (medium_after_change t v (station_after_tuning rank t) m) }
    ensures starting { (m : MediumState) (v t : ℕ) (packet : List ℕ) → IsMedium m
        → IsMedium (medium_after_change t v (station_after_start m.numbers t packet) m) }
    ensures ending { (m : MediumState) (v t : ℕ) → IsMedium m → IsMedium (medium_after_change t v station_after_end m) }
{}
