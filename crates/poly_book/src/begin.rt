//! Begins a book.
ghost use Rattle.std.specs.Prelude.{◌≡◌, ◌∷◌, [], IfErr, IfOk};
ghost use Rattle.std.specs.Arc.{arc_value};
ghost use Rattle.poly_place.specs.Right.{IsRight};
ghost use Rattle.poly_tiling.specs.Names.{WellNamed};
ghost use Rattle.poly_tiling.specs.Shows.{Shows};
ghost use Rattle.poly_tasks.specs.Meaning.{IsOwn, own_of};
ghost use Rattle.poly_book.specs.States.{opening};
ghost use Rattle.poly_tasks.specs.declared.task.Own.{Own as OwnOf};

use crate::book::Book;
use crate::parts::Parts;
use crate::scene::Scene;
use poly_atom::GuardLog;
use poly_catalogue::Catalogue;
use poly_design::Design;
use poly_grid::Refusal;
use poly_lists::SharedLists;
use poly_place::Table;
use poly_tasks::{Own, Pending, Register};
use poly_tiling::View;
use poly_undo::History;
use std::alloc::Global;
use std::sync::Arc;

impl Book {
    /// The opening book of a design: no tiling is listed, and task 1 is pending without atoms. Fails only when out of
    /// memory.
    pub fn begin(alloc: Global, design: Design) -> Result<Book, Refusal>
        ensures ok { IfOk result (λ b. (b ≡ opening design b.view) × WellNamed b.view × Shows b.view design) }
        ensures why { IfErr result (λ e. e ≡ Refusal.Memory) }
    {
        let tasks = first_task(alloc)?;
        let history = History::new(alloc)?;
        let opened = design.copy()?;
        let (table, view) = numbered(alloc, &design)?;
        Ok(Book {
            parts: Parts {
                alloc,
                opened,
                design,
                table,
                scene: Scene::new(alloc, view),
                listed: Catalogue::new(alloc),
                log: GuardLog::new(alloc),
                settled: 0,
                tasks,
                register: Register::new(alloc),
                next: 2,
                history,
                steps: Vec::new(alloc),
                endings: Vec::new(alloc),
            },
        })
    }
}

// Task 1, without atoms.
fn first_task(alloc: Global) -> Result<Vec<Pending>, Refusal>
    ensures ok { IfOk result (λ ps. (own : OwnOf) × (own_of [] own ≡ []) × IsOwn [] own × (ps.items ≡ (record { number = 1; own = own; made = 0 }) ∷ [])) }
    ensures why { IfErr result (λ e. e ≡ Refusal.Memory) }
{
    let shared = SharedLists::one(alloc, &[])?;
    let mut tasks = Vec::new(alloc);
    tasks.push(Pending {
        number: 1,
        own: Own::Listed(shared, 0),
        made: 0,
    })?;
    Ok(tasks)
}

// The table of the design, and the table's view.
fn numbered(alloc: Global, design: &Design) -> Result<(Table, Arc<View>), Refusal>
    ensures right { IfOk result (λ r. IsRight r.0 design.now) }
    ensures view { IfOk result (λ r. arc_value r.1 ≡ r.0) }
    ensures why { IfErr result (λ e. e ≡ Refusal.Memory) }
{
    let table = Table::of(alloc, design)?;
    let Ok(view) = table.view() else {
        drop(table);
        return Err(Refusal::Memory);
    };
    let Ok(shared) = Arc::new(alloc, view) else {
        drop(table);
        return Err(Refusal::Memory);
    };
    Ok((table, shared))
}
