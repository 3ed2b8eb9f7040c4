//! What holds of the definitions of circles, whatever the graph; no function here does anything.
ghost use Rattle.std.specs.Prelude.{◌≡◌, ℕ, ◌≤◌, Bool, true, List, [], ◌∷◌, ◌++◌, Some, None, All};
ghost use Rattle.ffm_model.specs.Circles.{is_circle, first_circle};
ghost use Rattle.dependency_circle.specs.Circles.{IsFirstCircle, AnswersCircle};
ghost use Rattle.dependency_circle.specs.Examples.{joined};

/// The list that the definition finds is the first circle, and where it finds none there is none.
pub fn first_of_the_lists_is_the_first_circle()
    ensures { (n : ℕ) (edge : ℕ → ℕ → Bool) → AnswersCircle n edge (first_circle n edge) }
{}

/// No graph has two first circles.
pub fn one_first_circle()
    ensures { (n : ℕ) (edge : ℕ → ℕ → Bool) (c d : List ℕ) → IsFirstCircle n edge c
        → IsFirstCircle n edge d
        → c ≡ d }
{}

/// A circle that begins at another of its places is a circle.
pub fn rotated_circle()
    ensures { (n : ℕ) (edge : ℕ → ℕ → Bool) (front back : List ℕ)
        → is_circle n edge (front ++ back) ≡ true
        → is_circle n edge (back ++ front) ≡ true }
{}

/// The first circle begins with the least place that lies on any circle.
pub fn least_place_first()
    ensures { (n : ℕ) (edge : ℕ → ℕ → Bool) (first : ℕ) (rest circle : List ℕ)
        → IsFirstCircle n edge (first ∷ rest) → is_circle n edge circle ≡ true
        → All (λ place. first ≤ place) circle }
{}

/// Place 0 leads to a circle and lies on none, and place 2 leads to an end; among three places there
/// is no circle. Two places with an edge each way are a circle, and so is one place with an edge to
/// itself.
pub fn worked_graphs()
    ensures behind_a_way_in { first_circle 5
        (joined ((0, 1) ∷ (1, 2) ∷ (1, 3) ∷ (2, 4) ∷ (3, 1) ∷ []))
        ≡ Some (1 ∷ 3 ∷ []) }
    ensures no_circle { first_circle 3 (joined ((0, 1) ∷ (1, 2) ∷ [])) ≡ None }
    ensures both_ways { first_circle 2 (joined ((0, 1) ∷ (1, 0) ∷ [])) ≡ Some (0 ∷ 1 ∷ []) }
    ensures to_itself { first_circle 1 (joined ((0, 0) ∷ [])) ≡ Some (0 ∷ []) }
{}
