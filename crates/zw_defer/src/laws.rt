// What holds of exits: each law is the contract of a function that does nothing.
ghost use Rattle.std.specs.Prelude.{◌≡◌, ◌++◌, ℕ, Bool, List, map, reverse};
ghost use Rattle.std.specs.List.{filter, flat_map};
ghost use Rattle.zw_defer.specs.declared.exits.Scope.{Scope};
ghost use Rattle.zw_defer.specs.ScopeExit.{runs, left_scopes, exit_list};
ghost use Rattle.zw_defer.specs.WorkedExits.{WorkedExits};

/// What leaving scopes runs is what was deferred in them and runs at such an exit, in the reverse of the text's order.
pub fn statements_in_reverse()
    ensures { (error : Bool) (scopes : List Scope) →
        left_scopes error scopes ≡ reverse (map (λ item. item.0) (filter (runs error) (flat_map (λ scope. scope.items) scopes))) }
{}

/// Leaving scopes is leaving the inner ones, and then the outer ones.
pub fn scopes_one_by_one()
    ensures { (error : Bool) (outer inner : List Scope) → left_scopes error (outer ++ inner) ≡ left_scopes error inner ++ left_scopes error outer }
{}

/// What exits run, worked out by hand: by an error and without one, from one scope and from several.
pub fn exits_are_worked()
    ensures { WorkedExits }
{}
