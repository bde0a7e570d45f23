// Where a run stands in a session in list mode.
use list_session::ListState;
use sheet::Place;

// Its place, and the small states.
#[derive(Clone, Copy)]
pub struct ListPlace {
    pub place: Place,
    pub state: ListState,
}
