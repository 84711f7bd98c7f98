// What follows from the definitions of columns and places alone.
ghost use Rattle.std.specs.Prelude.{◌≡◌, ℕ, ◌<◌};
ghost use Rattle.sketch.specs.Layout.{Shape, Sound, column, place, width};

// Every column is one of its row's, and cells of different levels, rows or columns have different places.
pub fn layout_stands()
    ensures column_below { (s : Shape) → Sound s → (k r i : ℕ) → column s k r i < width s }
    ensures places_apart { (s : Shape) (k r col k' r' col' : ℕ) → r < s.rows → r' < s.rows → col < width s → col' < width s → place s k r col ≡ place s k' r' col' → (k ≡ k') × (r ≡ r') × (col ≡ col') }
{}
