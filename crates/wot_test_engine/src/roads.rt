//! A test that `Engine::roads`, which no command calls, lends the roads of an open view.
use crate::assertion::expect_that;
use wot_cache::Engine;
use wot_types::{Limits, Steps, ViewName};

#[test]
fn roads_of_a_view(rt: HostRuntime) {
    let mut engine = Engine::new(rt.alloc(), Limits::standard());
    let name = ViewName::read(rt.alloc(), b"p").ok().flatten();
    let view = name.expect(&rt, "a name");
    expect_that(&rt, engine.view_time(&view, 5000).is_ok());
    expect_that(&rt, engine.roads(&view, &mut Steps::new()).is_ok());
    drop(engine);
}
