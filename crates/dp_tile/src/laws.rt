//! Laws of grids. Each function does nothing: its contract is the law.

ghost use Rattle.std.specs.Prelude.{◌≡◌, ◌≤◌, ℕ, true};
ghost use Rattle.dp_tile.specs.declared.area.CellArea.{CellArea};
ghost use Rattle.dp_tile.specs.Tiles.{IsGrid, TileGrid, cell_at, cells_shown};
ghost use Rattle.dp_tile.specs.Areas.{is_in_cells, shown_in};

/// Of the cells of an area no more show something than of all cells of the grid.
pub fn an_area_shows_at_most_its_grid()
    ensures { (g : TileGrid) (area : CellArea) → IsGrid g → area.left ≤ area.right
        → area.top ≤ area.bottom → area.right ≤ g.cols → area.bottom ≤ g.rows
        → shown_in area g ≤ cells_shown g }
{}

/// Of the cells of an area as many show something in two grids that have the same cells there.
pub fn same_cells_show_alike()
    ensures { (area : CellArea) (g other : TileGrid)
        → ((col row : ℕ) → is_in_cells area col row ≡ true
        → cell_at g col row ≡ cell_at other col row)
        → shown_in area g ≡ shown_in area other }
{}
