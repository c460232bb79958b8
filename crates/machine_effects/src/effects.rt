// The effects of a step, one method each.

mod cancel;
mod create;
mod deliver;
mod destroy;
mod due;
mod end_main;
mod exec_create;
mod exec_start;
mod feed;
mod freeze;
mod halt;
mod launch;
mod meet;
mod op;
mod remove;
mod rename;
mod settle;
mod ticket;
mod volumes;
