//! Worked examples of the definitions. None of these functions does anything.
ghost use Rattle.std.specs.Prelude.{◌≡◌, [], ◌∷◌, true, false, Some, None};
ghost use Rattle.ul_problem.specs.Examples.{all_three, first_alone, first_and_third, first_two, last_two, second_alone, third_alone};
ghost use Rattle.ul_problem.specs.Terms.{allows, meet_of, join_of, relation_of};
ghost use Rattle.ul_problem.specs.Steps.{pair_of, resolvent_term};
ghost use Rattle.ul_problem.specs.Best.{first_open, version_in};
ghost use Rattle.ul_problem.specs.declared.term.Term.TheVariants.{In, NotIn};
ghost use Rattle.ul_problem.specs.declared.term.Relation.TheVariants.{Holds, Fails, Unknown};

/// Terms on node 4, which has three versions.
pub fn terms()
    ensures in_and_in { meet_of (In 4 first_two) (In 4 last_two) ≡ In 4 second_alone }
    ensures in_and_not { meet_of (In 4 first_two) (NotIn 4 last_two) ≡ In 4 first_alone }
    ensures not_and_not { meet_of (NotIn 4 first_two) (NotIn 4 last_two) ≡ NotIn 4 all_three }
    ensures in_or_in { join_of (In 4 first_alone) (In 4 third_alone) ≡ In 4 first_and_third }
    ensures in_or_not { join_of (In 4 first_alone) (NotIn 4 first_two) ≡ NotIn 4 second_alone }
    ensures not_or_not { join_of (NotIn 4 first_two) (NotIn 4 last_two) ≡ NotIn 4 second_alone }
    ensures absent { allows (NotIn 4 all_three) None ≡ true }
    ensures present { allows (NotIn 4 first_and_third) (Some 2) ≡ false }
{}

/// What a known term tells: {1} of {1, 2}, {1} of {2}, {1, 2} of {2}, `not {1, 2}` of `not {1}`, and {} of anything.
pub fn relations()
    ensures within { relation_of (In 4 (true ∷ false ∷ [])) (In 4 (true ∷ true ∷ [])) ≡ Holds }
    ensures apart { relation_of (In 4 (true ∷ false ∷ [])) (In 4 (false ∷ true ∷ [])) ≡ Fails }
    ensures partly { relation_of (In 4 (true ∷ true ∷ [])) (In 4 (false ∷ true ∷ [])) ≡ Unknown }
    ensures outside { relation_of (NotIn 4 (true ∷ true ∷ [])) (NotIn 4 (true ∷ false ∷ [])) ≡ Holds }
    ensures absent { relation_of (NotIn 4 (true ∷ true ∷ [])) (In 4 (true ∷ false ∷ [])) ≡ Fails }
    ensures never { relation_of (In 4 (false ∷ false ∷ [])) (In 4 (true ∷ true ∷ [])) ≡ Holds }
{}

/// What a need says: in the order of nodes, without `not n {}`, and met where the two nodes are one.
pub fn pairs()
    ensures ahead { pair_of (In 0 (true ∷ [])) (NotIn 1 (true ∷ false ∷ []))
        ≡ In 0 (true ∷ []) ∷ NotIn 1 (true ∷ false ∷ []) ∷ [] }
    ensures behind { pair_of (In 3 (true ∷ [])) (NotIn 1 (true ∷ [])) ≡ NotIn 1 (true ∷ []) ∷ In 3 (true ∷ []) ∷ [] }
    ensures dropped { pair_of (In 0 (true ∷ [])) (NotIn 1 (false ∷ false ∷ [])) ≡ In 0 (true ∷ []) ∷ [] }
    ensures met { pair_of (In 2 (true ∷ true ∷ [])) (NotIn 2 (true ∷ false ∷ [])) ≡ In 2 (false ∷ true ∷ []) ∷ [] }
    ensures cut { resolvent_term 1 1 (Some (In 1 (true ∷ []))) (Some (NotIn 1 (true ∷ []))) ≡ None }
    ensures uncut { resolvent_term 1 2 None (Some (In 2 (true ∷ []))) ≡ Some (In 2 (true ∷ [])) }
    ensures lone { resolvent_term 1 1 None (Some (In 1 (true ∷ []))) ≡ None }
{}

/// The next node is the first that isn't decided, and a decision is read off its list.
pub fn decisions()
    ensures next { first_open ((0, 3) ∷ (2, 1) ∷ []) (0 ∷ 2 ∷ 5 ∷ 1 ∷ []) ≡ Some 5 }
    ensures done { first_open ((0, 3) ∷ (2, 1) ∷ []) (2 ∷ 0 ∷ []) ≡ None }
    ensures picked { version_in ((0, 3) ∷ (2, 1) ∷ []) 2 ≡ Some 1 }
    ensures unpicked { version_in ((0, 3) ∷ (2, 1) ∷ []) 1 ≡ None }
{}
