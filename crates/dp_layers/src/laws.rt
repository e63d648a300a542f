//! Laws of the definitions, each the contract of a function that does nothing.

ghost use Rattle.std.specs.Prelude.{◌≡◌, ◌↔◌, ℕ, not, Option, Some, is_some};
ghost use Rattle.std.specs.Prelude.{List, [], map, length, count_by, All, true};
ghost use Rattle.std.specs.List.{filter_map};
ghost use Rattle.std.specs.Option.{option_map};
ghost use Rattle.dp_msg_draw.specs.Limits.{IsListedMode};
ghost use Rattle.dp_msg_draw.specs.declared.draw.Draw.{Draw as Message};
ghost use Rattle.dp_layers.specs.declared.row.LayerRow.{LayerRow as Layer};
ghost use Rattle.dp_layers.specs.Layers.{row_of, is_paint_row, is_listed_mode};
ghost use Rattle.dp_layers.specs.Rows.{
  Row,
  layers_of,
  contents_of,
  content_of,
  with_content,
  map_contents,
};
ghost use Rattle.dp_layers.specs.Changes.{makes_paint_row, rows_after};
ghost use Rattle.dp_layers.specs.Tree.{IsLayerTree, IsTree};

/// No rows are a tree of layers, and what a command makes of a tree is one. So is a tree with
/// another content in a paint row.
pub fn trees_stay_trees<X>()
    ensures empty { IsTree {X = X} [] }
    ensures after { (rows : List (Row X)) (op : Message) (x : Option X)
        → IsTree rows → is_some x ≡ makes_paint_row op → IsTree (rows_after rows op x) }
    ensures filled { (rows : List (Row X)) (id : ℕ) (x : X)
        → IsTree rows → is_paint_row (layers_of rows) id ≡ true
        → IsTree (with_content rows id x) }
{}

/// What the commands make of the rows doesn't depend on what these hold: they commute with a
/// function that is applied to every content.
pub fn contents_ride_along<X, Y>()
    ensures layers { (f : X → Y) (rows : List (Row X))
        → layers_of (map_contents f rows) ≡ layers_of rows }
    ensures contents { (f : X → Y) (rows : List (Row X))
        → contents_of (map_contents f rows) ≡ map f (contents_of rows) }
    ensures content { (f : X → Y) (rows : List (Row X)) (id : ℕ)
        → content_of (map_contents f rows) id ≡ option_map f (content_of rows id) }
    ensures filled { (f : X → Y) (rows : List (Row X)) (id : ℕ) (x : X)
        → map_contents f (with_content rows id x) ≡ with_content (map_contents f rows) id (f x) }
    ensures after { (f : X → Y) (rows : List (Row X)) (op : Message) (x : Option X)
        → map_contents f (rows_after rows op x)
        ≡ rows_after (map_contents f rows) op (option_map f x) }
    ensures tree { (f : X → Y) (rows : List (Row X)) → IsTree rows → IsTree (map_contents f rows) }
{}

/// A tree is fixed by its rows and by what the paint rows hold, in order.
pub fn one_tree<X>()
    ensures { (a b : List (Row X)) → IsTree a → IsTree b
        → layers_of a ≡ layers_of b → contents_of a ≡ contents_of b → a ≡ b }
{}

/// Each row is the one that its id leads to.
pub fn rows_by_id()
    ensures { (rows : List Layer) → IsLayerTree rows
        → All (λ row. row_of rows row.id ≡ Some row) rows }
{}

/// What a tree's paint rows hold, in order: as many contents as paint rows, and those that the ids
/// of the rows lead to.
pub fn contents_in_order<X>()
    ensures count { (rows : List (Row X)) → IsTree rows
        → length (contents_of rows) ≡ count_by (λ row. not row.group) (layers_of rows) }
    ensures by_id { (rows : List (Row X)) → IsTree rows
        → contents_of rows ≡ filter_map (λ row. content_of rows row.id) (layers_of rows) }
{}

/// The modes that a LayerAttr may set are the listed ones.
pub fn listed_modes()
    ensures { (mode : ℕ) → (is_listed_mode mode ≡ true) ↔ IsListedMode mode }
{}
